// A place in the tree: a path, and the inode to which it leads.
use posix_calls::ROOT;
use script::Text;
use std::alloc::Global;

/// A path as scripts write it, without the `/` of the root, and the inode to which it leads.
#[derive(Drop)]
pub struct Place {
    pub inode: u32,
    path: Text,
}

impl Place {
    /// The root.
    pub fn root(alloc: Global) -> Place {
        Place {
            inode: ROOT,
            path: Text::new(alloc),
        }
    }

    /// What this directory has under a name.
    pub fn child(&self, alloc: Global, name: &[u8], inode: u32) -> Place {
        let mut path = Text::new(alloc);
        path.put(self.path.as_str());
        path.put("/");
        path.name(name);
        Place { inode, path }
    }

    /// The path.
    pub fn path(&self) -> &str {
        match self.path.as_str() {
            "" => "/",
            path => path,
        }
    }

    /// Whether there was no memory for the whole path.
    pub fn is_cut(&self) -> bool {
        self.path.is_cut()
    }
}
