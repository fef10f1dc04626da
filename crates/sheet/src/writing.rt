// Writing the sheet of what a docket holds.
ghost use Rattle.std.specs.Prelude.{◌≡◌, ℕ, ◌+◌, ◌-◌, ◌*◌, ◌/◌, ◌%◌, ◌^◌, ◌<◌, ◌≤◌, List, length, pos, Ok, Err, slice_index, slice_index_or};
ghost use Rattle.span.specs.Intervals.{point, ◌+ᵢ◌};
ghost use Rattle.span.specs.Spans.{ends};
ghost use Rattle.method.specs.Method.{size};
ghost use Rattle.system.specs.Figures.{spans};
ghost use Rattle.source.specs.Meaning.{Meaning};
ghost use Rattle.law.specs.Calls.{Given};
ghost use Rattle.docket.specs.Dockets.{After, Of};
ghost use Rattle.sheet.specs.Again.{RechecksAgain};
ghost use Rattle.sheet.specs.Bytes.{unsigned_at};
ghost use Rattle.sheet.specs.Layout.{at_trailer, distance, sheet_length};
ghost use Rattle.sheet.specs.Numbers.{Numbered, Numbers};
ghost use Rattle.sheet.specs.Sheets.{end};
ghost use Rattle.sheet.specs.Writing.{Writing};

use crate::bytes::{put_number, put_unsigned};
use crate::fault::Fault;
use crate::layout::{Layout, place_of};
use docket::Docket;
use enclosure::Enclosure;
use source::Source;
use span::{Scale, Span};

// Fills the buffer from its start with the sheet of what is held, and answers its length.
pub fn write<C: Source, T: Scale>(docket: &Docket<C, T>, buffer: &mut [u8]) -> Result<usize, Fault>
    ensures unchanged { elim result [ Ok l ↦ Unit {0} | Err f ↦ buffer.new ≡ buffer.old ] }
    ensures long { length buffer.new ≡ length buffer.old }
    ensures written { (M : Meaning) (h : List Given) → After C.Source T.Scale.unit M h docket.now → Writing T.Scale.unit h buffer.old buffer.new result }
    ensures again { (M : Meaning) (h : List Given) → After C.Source T.Scale.unit M h docket.now → RechecksAgain T.Scale.unit h buffer.new result }
{
    let Some(held) = docket.held() else {
        return Err(Fault::NotHeld);
    };
    let layout = Layout::new(docket.states() as u8, docket.settings() as u8);
    if buffer.len() < layout.length() {
        return Err(Fault::NoRoom);
    }
    put_numbers(docket, &held, layout, buffer);
    put_distances(layout, buffer);
    put_head::<T>(layout, held.narrowings(), buffer);
    Ok(layout.length())
}

// Everything before the trailer. This and the two functions that follow ask for the room each: a type
// of the layout and the buffer would have to say of each that it leaves the layout.
fn put_numbers<C: Source, T: Scale>(
    docket: &Docket<C, T>,
    held: &Enclosure,
    layout: Layout,
    buffer: &mut [u8],
)
    requires layout { (layout.states ≡ docket.now.desk.figures.states) × (layout.settings ≡ docket.now.desk.figures.settings) }
    requires room { sheet_length layout.states layout.settings ≤ length buffer.old }
    ensures long { length buffer.new ≡ length buffer.old }
    ensures numbers { Numbers T.Scale.unit (C.Source.meaning docket.now.source) (C.Source.sound docket.now.source) docket.now.desk held.now (at_trailer layout.states layout.settings) buffer.new }
    ensures after { (i : ℕ) → 4 * at_trailer layout.states layout.settings ≤ i → slice_index buffer.new i ≡ slice_index buffer.old i }
{
    for t in 0..layout.trailer() {
        put_number(buffer, 4 * t, number_of(docket, held, layout, t));
    }
}

// Number t, by its section; 0 stands for what a docket that holds ranges never lacks.
fn number_of<C: Source, T: Scale>(
    docket: &Docket<C, T>,
    held: &Enclosure,
    layout: Layout,
    t: usize,
) -> i32
    requires layout { (layout.states ≡ docket.now.desk.figures.states) × (layout.settings ≡ docket.now.desk.figures.settings) }
    requires below { t < at_trailer layout.states layout.settings }
    ensures { Numbered T.Scale.unit (C.Source.meaning docket.now.source) (C.Source.sound docket.now.source) docket.now.desk held.now t result }
{
    if t < layout.ranges() {
        docket.coefficient(place_of(layout.states, t))
    } else if t < layout.table() {
        let u = t - layout.ranges();
        end_of(docket.range(u / 2 + 1), u % 2)
    } else if t < layout.guesses() {
        figure_at(held.prepared().table(), t - layout.table())
    } else if t < layout.trial() {
        figure_at(held.prepared().guesses(), t - layout.guesses())
    } else if t < layout.claims() {
        let u = t - layout.trial();
        end_of(range_at(held.trial(), u / 2), u % 2)
    } else {
        claim(held, t - layout.claims())
    }
}

// Number u of the claims, an end of a held range.
fn claim(held: &Enclosure, u: usize) -> i32
    ensures { u / 2 < held.now.prepared.states → result ≡ end (point (slice_index_or held.now.prepared.guesses (u / 2) (pos 0)) +ᵢ spans held.now.correction (u / 2)) (u % 2) }
{
    match held.row(u / 2) {
        Ok(range) => end_of(range, u % 2),
        Err(_) => 0,
    }
}

// What stands at a place, nothing past the last.
fn figure_at(figures: &[i32], i: usize) -> i32
    ensures { result ≡ slice_index_or figures.now i (pos 0) }
{
    figures.get(i).copied().unwrap_or_default()
}

fn range_at(ranges: &[Span], i: usize) -> Span
    ensures { ends result ≡ spans ranges.now i }
{
    ranges.get(i).copied().unwrap_or_default()
}

// The low end (0) or the high end.
fn end_of(range: Span, which: usize) -> i32
    requires { which < 2 }
    ensures { size (ends range) < 2 ^ 31 → result ≡ end (ends range) which }
{
    let figure = range.ends()[which];
    i32::try_from(figure).unwrap_or(0)
}

// How far each section begins from the end of the sheet.
fn put_distances(layout: Layout, buffer: &mut [u8])
    requires room { sheet_length layout.states layout.settings ≤ length buffer.old }
    ensures long { length buffer.new ≡ length buffer.old }
    ensures distances { (s : ℕ) → s < 5 → unsigned_at buffer.new (4 * at_trailer layout.states layout.settings + 4 * s) ≡ distance layout.states layout.settings s }
    ensures before { (i : ℕ) → i < 4 * at_trailer layout.states layout.settings → slice_index buffer.new i ≡ slice_index buffer.old i }
    ensures after { (i : ℕ) → 4 * at_trailer layout.states layout.settings + 20 ≤ i → slice_index buffer.new i ≡ slice_index buffer.old i }
{
    let start = 4 * layout.trailer();
    for s in 0..5 {
        put_unsigned(buffer, start + 4 * s, layout.distance(s));
    }
}

// S, n, k, the narrowings and a zero end the sheet.
fn put_head<T: Scale>(layout: Layout, narrowings: u8, buffer: &mut [u8])
    requires room { sheet_length layout.states layout.settings ≤ length buffer.old }
    ensures long { length buffer.new ≡ length buffer.old }
    ensures scale { unsigned_at buffer.new (sheet_length layout.states layout.settings - 8) ≡ T.Scale.unit }
    ensures states { slice_index buffer.new (sheet_length layout.states layout.settings - 4) ≡ layout.states }
    ensures settings { slice_index buffer.new (sheet_length layout.states layout.settings - 3) ≡ layout.settings }
    ensures narrowings { slice_index buffer.new (sheet_length layout.states layout.settings - 2) ≡ narrowings }
    ensures zero { slice_index buffer.new (sheet_length layout.states layout.settings - 1) ≡ 0 }
    ensures before { (i : ℕ) → i < 4 * at_trailer layout.states layout.settings + 20 → slice_index buffer.new i ≡ slice_index buffer.old i }
    ensures after { (i : ℕ) → sheet_length layout.states layout.settings ≤ i → slice_index buffer.new i ≡ slice_index buffer.old i }
{
    let at = layout.length() - 8;
    put_unsigned(buffer, at, T::units() as u32);
    buffer[at + 4] = layout.states as u8;
    buffer[at + 5] = layout.settings as u8;
    buffer[at + 6] = narrowings;
    buffer[at + 7] = 0;
}
