// A docket: it owns a source of coefficients, and what a call does depends on its stage and the
// call together.
use crate::desk::Desk;
use source::Source;
use span::Scale;
use std::marker::PhantomData;

mod calls;
mod drafting;
mod keeping;
mod proposing;

#[derive(Drop)]
pub struct Docket<C: Source, T: Scale> {
    source: C,
    desk: Desk,
    scale: PhantomData<T>,
}
