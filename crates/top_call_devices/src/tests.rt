// What a run leaves where a device fails, and that several workers answer as one does.
mod devices;
mod gates;
mod workers;
