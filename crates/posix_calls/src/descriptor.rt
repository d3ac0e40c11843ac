/// A file that is open, and whether it may be read from and written to.
#[derive(Clone, Copy)]
pub struct Descriptor {
    pub inode: u32,
    pub reads: bool,
    pub writes: bool,
}
