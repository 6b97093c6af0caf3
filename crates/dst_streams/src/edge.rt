// The trusted edge: real files, standard output and standard input. They tell no bytes.
mod file_sink;
mod file_source;
mod pipe_flow;
mod text_sink;

pub use file_sink::FileSink;
pub use file_source::FileSource;
pub use pipe_flow::PipeFlow;
pub use text_sink::TextSink;
