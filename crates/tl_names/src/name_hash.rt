//! The hash of names and numbers, whose key is made of a program.
use md5::{Digest, Md5};
use std::hash::{BuildHasher, FoldHasher, Hasher};
use tl_program::{Decl, FieldKind, Program};

/// How the names and numbers of a program are hashed: under a digest of what it declares, so that a text that is fitted to its hash
/// has another one.
#[derive(Clone, Copy)]
pub struct NameHash {
    keyed: FoldHasher,
}

impl BuildHasher for NameHash {
    type Hasher = FoldHasher;

    ghost build_hasher = { λ h. h.keyed };

    fn build_hasher(&self) -> FoldHasher {
        self.keyed
    }
}

impl NameHash {
    /// The hash of a program, by its descriptions and by the numbers and flags that these leave out.
    pub fn of(program: &Program) -> NameHash {
        let mut digest = Md5::new();
        for decl in &program.decls {
            feed(&mut digest, decl);
        }
        let mut keyed = FoldHasher::default();
        keyed.write(digest.finalize().as_slice());
        NameHash { keyed }
    }
}

// Feeds what a declaration declares. No name has a NUL, so each piece ends where it says.
fn feed(digest: &mut Md5, decl: &Decl) {
    digest.update(decl.description());
    if let Some(number) = decl.number {
        digest.update(b"\0#".as_slice());
        digest.update(number.to_le_bytes().as_slice());
    }
    for field in &decl.fields {
        if let FieldKind::Flag = field.kind {
            digest.update(b"\0".as_slice());
            digest.update(field.name.as_slice());
        }
    }
    digest.update(b"\0;".as_slice());
}
