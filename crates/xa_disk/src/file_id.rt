/// Which file it is: its number on its device. No two files that are open at a time have the same.
#[derive(Clone, Copy, Debug, PartialEq, Eq)]
pub struct FileId {
    pub device: u64,
    pub inode: u64,
}
