//! Breaks of fields: the first cause in their order that any field has, and the first field that has it.
ghost use Rattle.std.specs.Prelude.{◌≡◌, ◌↔◌, ◌<◌, IsTrue, length, slice_get, Some};
ghost use Rattle.std.specs.Option.{option_map};
ghost use Rattle.tl_graph.specs.Firsts.{First};
ghost use Rattle.tl_plan.specs.Types.{is_same};
ghost use Rattle.tl_schema.specs.Seen.{shape};
ghost use Rattle.tl_schema.specs.Types.{nat};
ghost use Rattle.tl_layers.specs.Breaks.{IsAdded, IsBefore, IsChanged, IsSpare, LacksField, NamesBit, named_condition};
ghost use Rattle.tl_layers.specs.inner.FieldBreaks.{HasCause, IsFieldBreak, count_for};

use crate::fault::Break;
use crate::fields::Fields;
use crate::images::is_image;
use crate::pairs::Pair;
use tl_schema::TypeRef;

/// Why a field breaks, in the order of the causes.
#[derive(Clone, Copy)]
pub enum FieldCause {
    Gone,
    Order,
    Changed,
    Added,
}

/// The first break of a field.
pub fn field_break(pair: &Pair, olds: &Fields, news: &Fields) -> Option<Break>
    ensures { IsFieldBreak pair.now olds.now news.now result }
{
    if let Some(field) = first(FieldCause::Gone, pair, olds, news) {
        return Some(Break::FieldGone { field });
    }
    if let Some(field) = first(FieldCause::Order, pair, olds, news) {
        return Some(Break::FieldOrder { field });
    }
    if let Some(field) = first(FieldCause::Changed, pair, olds, news) {
        return Some(Break::FieldChanged { field });
    }
    if let Some(field) = first(FieldCause::Added, pair, olds, news) {
        return Some(Break::FieldAdded { field });
    }
    None
}

// The first field that has the cause.
fn first(cause: FieldCause, pair: &Pair, olds: &Fields, news: &Fields) -> Option<u32>
    ensures { First (HasCause pair.now olds.now news.now cause) result }
{
    let count = count_for(cause, olds, news);
    for k in 0..count {
        if has(cause, k, pair, olds, news) {
            return Some(k);
        }
    }
    None
}

// How many fields may have the cause.
fn count_for(cause: FieldCause, olds: &Fields, news: &Fields) -> u32
    ensures { result ≡ count_for olds.now news.now cause }
{
    match cause {
        FieldCause::Gone => olds.count(),
        FieldCause::Order => olds.count(),
        FieldCause::Changed => olds.count(),
        FieldCause::Added => news.count(),
    }
}

// Whether the field has the cause.
fn has(cause: FieldCause, k: u32, pair: &Pair, olds: &Fields, news: &Fields) -> bool
    requires { k < count_for olds.now news.now cause }
    ensures { IsTrue result ↔ HasCause pair.now olds.now news.now cause k }
{
    match cause {
        FieldCause::Gone => lacks(olds, news, k),
        FieldCause::Order => is_before(olds, news, k),
        FieldCause::Changed => is_changed(olds, news, pair, k),
        FieldCause::Added => is_added(olds, news, k),
    }
}

// Whether no new field has the name of this old one.
fn lacks(olds: &Fields, news: &Fields, k: u32) -> bool
    requires { k < length olds.now }
    ensures { IsTrue result ↔ LacksField olds.now news.now k }
{
    news.index_of(olds.at(k).name.as_slice()).is_none()
}

// Whether an old field stands, among the new ones, before the field that it stood after.
fn is_before(olds: &Fields, news: &Fields, k: u32) -> bool
    requires { k < length olds.now }
    ensures { IsTrue result ↔ IsBefore olds.now news.now k }
{
    if k == 0 {
        return false;
    }
    match news.index_of(olds.at(k - 1).name.as_slice()) {
        Some(before) => match news.index_of(olds.at(k).name.as_slice()) {
            Some(here) => here < before,
            None => false,
        },
        None => false,
    }
}

// Whether the new field of the name of this old one has another type than its image, or another condition.
fn is_changed(olds: &Fields, news: &Fields, pair: &Pair, k: u32) -> bool
    requires { k < length olds.now }
    ensures { IsTrue result ↔ IsChanged pair.now.old pair.now.new olds.now news.now k }
{
    let field = olds.at(k);
    match news.index_of(field.name.as_slice()) {
        Some(m) => {
            let other = news.at(m);
            !is_image(&field.of, &other.of, pair)
                || !is_same_condition(olds, news, field.cond, other.cond)
        }
        None => false,
    }
}

// Whether a further field stands by no spare bit.
fn is_added(olds: &Fields, news: &Fields, m: u32) -> bool
    requires { m < length news.now }
    ensures { IsTrue result ↔ IsAdded olds.now news.now m }
{
    let field = news.at(m);
    olds.index_of(field.name.as_slice()).is_none() && !is_spare(olds, news, field.cond)
}

// Whether the condition is a bit of an old `#` field, by which no old field stands.
fn is_spare(olds: &Fields, news: &Fields, cond: Option<(u32, u32)>) -> bool
    ensures { IsTrue result ↔ IsSpare olds.now news.now cond }
{
    let (m, bit) = match cond {
        Some(cond) => cond,
        None => return false,
    };
    if m >= news.count() {
        return false;
    }
    match olds.index_of(news.at(m).name.as_slice()) {
        Some(k) => is_number(&olds.at(k).of) && !names_bit(olds, k, bit),
        None => false,
    }
}

// Whether a type is `#`.
fn is_number(of: &TypeRef) -> bool
    ensures { result ≡ is_same (shape of.now) nat }
{
    matches!(of, TypeRef::Nat)
}

// Whether an old field stands by this bit of this field.
fn names_bit(olds: &Fields, k: u32, bit: u32) -> bool
    ensures { IsTrue result ↔ NamesBit olds.now k bit }
{
    for i in 0..olds.count() {
        if is_bit(olds.at(i).cond, k, bit) {
            return true;
        }
    }
    false
}

// Whether the condition is this bit of this field.
fn is_bit(cond: Option<(u32, u32)>, k: u32, bit: u32) -> bool
    ensures { IsTrue result ↔ cond ≡ Some (k, bit) }
{
    match cond {
        Some(own) => own.0 == k && own.1 == bit,
        None => false,
    }
}

// Whether two conditions are the same bit of fields with one name, or both are none.
fn is_same_condition(
    olds: &Fields,
    news: &Fields,
    old: Option<(u32, u32)>,
    new: Option<(u32, u32)>,
) -> bool
    ensures { IsTrue result ↔ named_condition news.now new ≡ named_condition olds.now old }
{
    match old {
        None => new.is_none(),
        Some((k, bit)) => match new {
            None => false,
            Some((m, also)) => also == bit && is_same_name(olds, news, k, m),
        },
    }
}

// Whether two fields have one name, or both aren't there.
fn is_same_name(olds: &Fields, news: &Fields, k: u32, m: u32) -> bool
    ensures { IsTrue result ↔ option_map (λ g. g.name) (slice_get news.now m) ≡ option_map (λ f. f.name) (slice_get olds.now k) }
{
    if m < news.count() {
        k < olds.count() && news.at(m).name.as_slice() == olds.at(k).name.as_slice()
    } else {
        k >= olds.count()
    }
}
