// Files without sound of one channel at 64 times 44.1 kHz, plain and coded.

/// The coded file of a plain one without sound: no frame, an empty index, and what `KEPT` says of the plain one.
pub(super) const CODED_SILENT: &[u8; 210] = b"FRM8\0\0\0\0\0\0\0\xc6DSD \
FVER\0\0\0\0\0\0\0\x04\x01\x05\0\0\
PROP\0\0\0\0\0\0\0\x42SND \
FS  \0\0\0\0\0\0\0\x04\0\x2b\x11\0\
CHNL\0\0\0\0\0\0\0\x06\0\x01C000\
CMPR\0\0\0\0\0\0\0\x10DST \x0bDST Encoded\
DST \0\0\0\0\0\0\0\x12\
FRTE\0\0\0\0\0\0\0\x06\0\0\0\0\0\x4b\
DSTI\0\0\0\0\0\0\0\0\
KEPT\0\0\0\0\0\0\0\x2e\x02\0\0\0\0\0\0\0\0\0\0\0\0\0\
CMPR\0\0\0\0\0\0\0\x13DSD \x0enot compressed\0";

/// The plain file with three bytes behind its form.
pub(super) const SILENT_AND_THREE: &[u8; 129] = b"FRM8\0\0\0\0\0\0\0\x72DSD \
FVER\0\0\0\0\0\0\0\x04\x01\x05\0\0\
PROP\0\0\0\0\0\0\0\x46SND \
FS  \0\0\0\0\0\0\0\x04\0\x2b\x11\0\
CHNL\0\0\0\0\0\0\0\x06\0\x01C000\
CMPR\0\0\0\0\0\0\0\x13DSD \x0enot compressed\0\
DSD \0\0\0\0\0\0\0\0\x01\x02\x03";

/// The coded file of that: the three bytes are kept, and a pad byte stands behind them.
pub(super) const CODED_SILENT_AND_THREE: &[u8; 214] = b"FRM8\0\0\0\0\0\0\0\xcaDSD \
FVER\0\0\0\0\0\0\0\x04\x01\x05\0\0\
PROP\0\0\0\0\0\0\0\x42SND \
FS  \0\0\0\0\0\0\0\x04\0\x2b\x11\0\
CHNL\0\0\0\0\0\0\0\x06\0\x01C000\
CMPR\0\0\0\0\0\0\0\x10DST \x0bDST Encoded\
DST \0\0\0\0\0\0\0\x12\
FRTE\0\0\0\0\0\0\0\x06\0\0\0\0\0\x4b\
DSTI\0\0\0\0\0\0\0\0\
KEPT\0\0\0\0\0\0\0\x31\x02\0\0\0\0\0\0\0\0\0\0\0\0\x03\
CMPR\0\0\0\0\0\0\0\x13DSD \x0enot compressed\0\x01\x02\x03\0";
