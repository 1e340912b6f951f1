//! Whether a schema has the forms, and what its first difference is.
ghost use Rattle.std.specs.Prelude.{◌≡◌, OnOk, slice_get};
ghost use Rattle.tl_schema.specs.CheckedPrograms.{IsSchema};
ghost use Rattle.wire_profile.specs.Profiles.{IsProfile};
ghost use Rattle.tl_schema.specs.Seen.{declaration};
ghost use Rattle.wire_forms.specs.Forms.{constructs, form_view, forms as the_forms, is_type};
ghost use Rattle.wire_profile.specs.Indexes.{form_at};
ghost use Rattle.wire_profile.specs.Faults.{IsFound, TellsFault, first_fault, first_further, form_fault, is_further, profile_fault};

use crate::fault::ProfileFault;
use crate::finding::form_at;
use crate::layout::Layout;
use std::alloc::Global;
use tl_base::Bytes;
use wire_forms::{Form, forms};

impl<'s> Layout<'s> {
    /// Whether the schema is a profile, its forms having these indexes.
    pub fn check(&self, alloc: Global) -> Result<(), ProfileFault>
        ensures fault { TellsFault (profile_fault self.now) result }
        ensures profile { OnOk result (IsProfile self.now) }
    {
        self.check_forms(alloc)?;
        self.check_others(alloc)
    }

    fn check_forms(&self, alloc: Global) -> Result<(), ProfileFault>
        ensures { TellsFault (first_fault self.now the_forms) result }
    {
        for (k, form) in forms().iter().enumerate() {
            self.check_form(alloc, form, self.indexes[k])?;
        }
        Ok(())
    }

    // What the form whose declaration has this index has.
    fn check_form(&self, alloc: Global, form: &Form, index: u32) -> Result<(), ProfileFault>
        ensures { TellsFault (form_fault self.now (form_view form.now) (slice_get self.now.schema.decls index)) result }
    {
        if index >= self.schema.count() {
            let name = Bytes::from_slice(alloc, form.name.as_bytes())?;
            return Err(ProfileFault::Missing { name });
        }
        if self.declares(form, self.schema.entry(index)) {
            return Ok(());
        }
        let name = Bytes::from_slice(alloc, form.name.as_bytes())?;
        Err(ProfileFault::Differs { name })
    }

    // The first further constructor of one of the types.
    fn check_others(&self, alloc: Global) -> Result<(), ProfileFault>
        ensures fault { TellsFault (first_further self.now 0 self.now.schema.decls) result }
        ensures sound { IsSchema self.now.schema }
        ensures found { IsFound self.now }
    {
        for i in 0..self.schema.count() {
            let entry = self.schema.entry(i);
            if self.is_further(entry.head, i) {
                let name = entry.name.copy()?;
                return Err(ProfileFault::Differs { name });
            }
        }
        Ok(())
    }

    fn is_further(&self, head: u32, i: u32) -> bool
        ensures { result ≡ is_further 0 self.now.heads head (form_at self.now.indexes i) }
    {
        for (h, own) in self.heads.iter().enumerate() {
            if *own == head && !constructs(h, form_at(&self.indexes, i)) {
                return true;
            }
        }
        false
    }
}

// Whether form k is a constructor of type h.
fn constructs(h: usize, k: u32) -> bool
    ensures { result ≡ constructs h k }
{
    match forms().get(k as usize) {
        Some(form) => !form.function && is_type(h, form.result),
        None => false,
    }
}

fn is_type(h: usize, made: Option<u32>) -> bool
    ensures { result ≡ is_type h made }
{
    match made {
        Some(own) => own as usize == h,
        None => false,
    }
}
