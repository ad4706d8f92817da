//! What is kept of spans.

ghost use Rattle.span_index.specs.Places.{AreAlike, AreOwn, times_in};

use crate::files::Files;
use crate::places::Place;
use std::collections::BTreeMap;
use std::marker::PhantomData;

/// The spans of an image, each as often as it was put in. Each call but `new` and `first_bad` looks once into the
/// table, and counts that.
///
/// The mark `L` ties the table to its counter: code that is generic in `L` can make no counter of its
/// own.
#[derive(Drop)]
pub struct SpanIndex<L> {
    // How often each span stands.
    pub(crate) spans: BTreeMap<Place, u64>,
    // The shown spans by file.
    pub(crate) files: Files,
    pub(crate) mark: PhantomData<L>,
    ghost own: { AreOwn spans },
    ghost alike: { AreAlike (times_in spans) files },
}
