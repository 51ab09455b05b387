// The fields of lines that are read. The functions that answer them stand in `frames_read`.

/// The fields of a D line; `count` samples are in the lent buffer.
#[derive(Clone, Copy, Debug, PartialEq, Eq)]
pub struct DataFields {
    pub sequence: u32,
    pub count: usize,
}

/// The fields of a K line.
// `kernel` is a number, as `start` takes it: an enum would be no plainer, since nothing here asks which kernel it is.
#[derive(Clone, Copy, Debug, PartialEq, Eq)]
pub struct StartFields {
    pub kernel: u8,
    pub word: u64,
    pub phase: u32,
}
