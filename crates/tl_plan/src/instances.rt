//! The instances of a plan.

use tl_schema::TypeForm;

/// A declaration of an instance's type, and the instance of each of its fields, in order.
pub struct Member {
    /// The index of the declaration.
    pub entry: u32,
    pub fields: Vec<u32>,
}

// By hand, so that each exit of an owner has one call to prove.
impl Drop for Member {
    fn drop(self) {
        let Member {
            entry: _,
            fields: _,
        } = self;
    }
}

/// A closed type, by its number in a plan.
pub struct Instance {
    pub form: TypeForm,
    /// The instance of the elements, where the type is a vector.
    pub item: Option<u32>,
    /// Of a boxed type its constructors, of a bare one that constructor, of a call every function, in the order of declarations; otherwise none.
    pub members: Vec<Member>,
}

// By hand, so that each exit of an owner has one call to prove.
impl Drop for Instance {
    fn drop(self) {
        let Instance {
            form: _,
            item: _,
            members: _,
        } = self;
    }
}
