// Sums by place, kept in a lent slice of entries. The methods pass the slice, and how many of its
// entries are in use, to functions: what a lent slice holds is said of functions over it.
ghost use Rattle.std.specs.Prelude.{◌≡◌, ◌<◌, ◌≤◌, length, ℤ, Some, None, Ok, Err, slice_set};
ghost use Rattle.source.specs.Tallies.{Added, AddedAt, FirstAt, NoneAt, Refused, Slot, Told, entry};

use crate::entry::{Entry, Exact, Refusal};
use crate::source::LARGEST;
use span::sum_within;

// The first `used` entries are in use; what stands past them holds nothing.
#[derive(Drop)]
pub struct Tally<'a, P> {
    entries: &'a mut [Entry<P>],
    used: usize,
}

impl<'a, P: Exact> Tally<'a, P> {
    // A tally with nothing in it, with room for as many places as there are entries.
    pub(crate) fn new(entries: &'a mut [Entry<P>]) -> Tally<'a, P>
        ensures { (result.entries.now ≡ entries.old) × (result.used ≡ 0) }
    {
        Tally { entries, used: 0 }
    }

    pub(crate) fn clear(&mut self)
        ensures { (self.new.entries.now ≡ self.old.entries.now) × (self.new.used ≡ 0) }
    {
        self.used = 0;
    }

    // Adds the amount at the place.
    pub(crate) fn add(&mut self, place: P, amount: i32) -> Result<(), Refusal>
        ensures { Added self.old.entries.now self.old.used place amount result self.new.entries.now self.new.used }
    {
        let used = self.used;
        let at = add(self.entries, used, place, amount)?;
        self.used = used.max(at + 1);
        Ok(())
    }

    // The sum at the place, if it has an entry.
    pub(crate) fn sum(&self, place: &P) -> Option<i32>
        ensures { Told self.now.entries.now self.now.used place.now result }
    {
        sum_at(self.entries, self.used, place)
    }
}

// Adds the amount to the place's entry, or begins one; tells which entry that is.
fn add<P: Exact>(
    entries: &mut [Entry<P>],
    used: usize,
    place: P,
    amount: i32,
) -> Result<usize, Refusal>
    ensures { elim result [ Ok at ↦ AddedAt entries.old used place amount at entries.new × (at < length entries.old) | Err f ↦ Refused entries.old used place amount f × (entries.new ≡ entries.old) ] }
{
    let (at, held) = slot(entries, used, &place).ok_or(Refusal::NoRoom)?;
    let sum = sum_within(LARGEST, held, amount).ok_or(Refusal::TooLarge)?;
    entries[at] = Entry { place, sum };
    Ok(at)
}

// The place's entry and its sum, or else the next entry that is free.
fn slot<P: Exact>(entries: &[Entry<P>], used: usize, place: &P) -> Option<(usize, i32)>
    ensures { elim result [ Some t ↦ Slot entries.now used place.now t.0 t.1 × (t.0 < length entries.now) | None ↦ NoneAt entries.now used place.now × (length entries.now ≤ used) ] }
{
    match find(entries, used, place) {
        Some(at) => Some((at, entries[at].sum)),
        None if used < entries.len() => Some((used, 0)),
        None => None,
    }
}

// The sum at the place, if one of the entries in use is at it.
fn sum_at<P: Exact>(entries: &[Entry<P>], used: usize, place: &P) -> Option<i32>
    ensures { Told entries.now used place.now result }
{
    let at = find(entries, used, place)?;
    Some(entries[at].sum)
}

// The first of the entries in use that is at the place.
fn find<P: Exact>(entries: &[Entry<P>], used: usize, place: &P) -> Option<usize>
    ensures { elim result [ Some i ↦ ((s : ℤ) × FirstAt entries.now used place.now i s) | None ↦ NoneAt entries.now used place.now ] }
{
    let end = used.min(entries.len());
    (0..end).find(|at| entries[*at].place == *place)
}
