//! How records are written.
ghost use Rattle.std.specs.Prelude.{◌≡◌, ◌∷◌, ◌++◌, [], string_bytes};
ghost use Rattle.json.specs.Print.{quoted};

use tl_schema::TypeRef;

/// What may stand at a key of a record.
#[derive(Drop)]
pub enum Part {
    /// The name of its declaration.
    Name,
    /// The value at this index, of this type.
    Field { index: usize, of: TypeRef },
}

/// What may stand at a key of a record: of these the last that is there. Only fields of one name, or one that is named `_`, make later ones.
pub struct KeyParts {
    pub first: Part,
    pub later: Vec<Part>,
}

// By hand, so that each exit of an owner has one call to prove.
impl Drop for KeyParts {
    fn drop(self) {
        let KeyParts { first: _, later: _ } = self;
    }
}

/// A key of a record, and what may stand at it.
pub struct Key {
    pub name: String,
    pub parts: KeyParts,
    /// A comma, the key as JSON, and its colon.
    pub lead: Vec<u8>,
    ghost is_lead: { lead.items ≡ 44 ∷ (quoted (string_bytes name) ++ 58 ∷ []) },
}

// By hand, so that each exit of an owner has one call to prove.
impl Drop for Key {
    fn drop(self) {
        let Key {
            name: _,
            parts: _,
            lead: _,
        } = self;
    }
}

/// How the records of a declaration are written: the text of its name, and the keys in the order of their bytes.
pub struct JsonForm {
    pub name: String,
    /// The name as JSON.
    pub title: Vec<u8>,
    pub keys: Vec<Key>,
    ghost is_title: { title.items ≡ quoted (string_bytes name) },
}

// By hand, so that each exit of an owner has one call to prove.
impl Drop for JsonForm {
    fn drop(self) {
        let JsonForm {
            name: _,
            title: _,
            keys: _,
        } = self;
    }
}
