// An index as it is lent: CNT, and the node and the leaf file of each tree. Any bytes, read only.
ghost use Rattle.std.specs.Prelude.{◌≡◌};
ghost use Rattle.index.specs.Files.{nodes_in, leaves_in};
ghost use Rattle.index.specs.Lent.{bytes_of};

use terms::term::Kind;

#[derive(Clone, Copy)]
pub struct Index<'a> {
    pub cnt: &'a [u8],
    pub n01: &'a [u8],
    pub l01: &'a [u8],
    pub n02: &'a [u8],
    pub l02: &'a [u8],
}

impl<'a> Index<'a> {
    // The node file of a tree.
    pub fn nodes(self, kind: Kind) -> &'a [u8]
        ensures { result.now ≡ nodes_in (bytes_of self.entry) kind }
    {
        match kind {
            Kind::Short => self.n01,
            Kind::Long => self.n02,
        }
    }

    // The leaf file of a tree.
    pub fn leaves(self, kind: Kind) -> &'a [u8]
        ensures { result.now ≡ leaves_in (bytes_of self.entry) kind }
    {
        match kind {
            Kind::Short => self.l01,
            Kind::Long => self.l02,
        }
    }
}
