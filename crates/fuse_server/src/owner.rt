/// To whom all of a mount belongs, and what others may do with it, as modes say that. Only the lowest nine bits of a mode count.
#[derive(Clone, Copy)]
pub struct Owner {
    pub uid: u32,
    pub gid: u32,
    pub file_mode: u32,
    pub dir_mode: u32,
}
