//! The pieces of an image's blocks: what runs whole, and which is the dearest by the turn.
ghost use Rattle.std.specs.Prelude.{◌≡◌, ◌<◌, ◌≤◌, ◌+◌, ◌*◌, ◌^◌, ◌⊎◌, ℕ, MatchOption, Ok, if◌then◌else◌, length};
ghost use Rattle.std.specs.Prelude.{nat_lt};
ghost use Rattle.sbx_image.specs.Rules.{parts_keep};
ghost use Rattle.sbx_image.specs.Order.{function_at};
ghost use Rattle.sbx_flat.specs.Runs.{weight_of};
ghost use Rattle.sbx_known.specs.Spots.{IsBlock};
ghost use Rattle.inspect_cycles.specs.Cycles.{cycles_of, slot_cycles};
ghost use Rattle.inspect_cycles.specs.Pieces.{AreWithin, Ends, IsDearest, IsDearestOf, IsOfBlock, IsWithin, ends_piece};
ghost use Rattle.inspect_cycles.specs.Pieces.{is_branch, kept_on, least, longer, no_words, turns_off};

use crate::table::{CycleTable, cycles_of, slot_cycles};
use sbx_flat::weight_of;
use sbx_image::Image;
use sbx_known::{Spot, ends_run, function_at, is_transfer, spot_at, words_in};
use sbx_verify::Accepted;
use v8_meaning::Operation;

/// What words that follow one another take.
#[derive(Clone, Copy)]
pub struct Piece {
    /// At most, in cycles.
    pub cycles: u64,
    /// What they count, in turns.
    pub turns: u64,
}

impl Piece {
    /// Whether it takes fewer cycles by the turn than another one.
    pub fn is_below(&self, other: &Piece) -> bool
        ensures { result ≡ nat_lt (self.now.cycles * other.now.turns) (other.now.cycles * self.now.turns) }
    {
        let others = u128::from(other.cycles) * u128::from(self.turns);
        u128::from(self.cycles) * u128::from(other.turns) < others
    }
}

/// The one of two pieces that takes more cycles by the turn.
fn dearer(one: Piece, other: Piece) -> Piece
    ensures one { IsWithin result one }
    ensures other { IsWithin result other }
    ensures is { (result ≡ one) ⊎ (result ≡ other) }
    ensures some { 1 ≤ one.turns → 1 ≤ other.turns → 1 ≤ result.turns }
{
    if one.is_below(&other) { other } else { one }
}

/// A piece with a word more.
fn longer(piece: Piece, cycles: u64, turns: u64) -> Piece
    requires cycles { piece.cycles + cycles < 2 ^ 64 }
    requires turns { piece.turns + turns < 2 ^ 64 }
    ensures { result ≡ longer piece cycles turns }
{
    Piece {
        cycles: piece.cycles + cycles,
        turns: piece.turns + turns,
    }
}

/// A turn without cycles, where no piece ends.
fn least() -> Piece
    ensures { result ≡ least }
{
    Piece {
        cycles: 0,
        turns: 1,
    }
}

/// Before the first word.
fn no_words() -> Piece
    ensures { result ≡ no_words }
{
    Piece {
        cycles: 0,
        turns: 0,
    }
}

/// Whether a word is a slot, or ends the run.
fn turns_off(spot: &Spot) -> bool
    ensures { result ≡ turns_off spot.now.before spot.now.operation }
{
    is_transfer(&spot.before) || ends_run(&spot.operation)
}

/// Whether a word is the last one of its piece.
fn ends_piece(spot: &Spot) -> bool
    requires { spot.now.number < spot.now.count }
    ensures { result ≡ ends_piece spot.now.before spot.now.operation spot.now.number spot.now.count }
{
    turns_off(spot) || spot.count <= spot.number + 1
}

/// The piece that ends with a word, where the words before it in its piece are given.
fn whole(table: &CycleTable, piece: Piece, spot: &Spot) -> Piece
    requires number { spot.now.number < spot.now.count }
    requires cycles { piece.cycles < 2 ^ 60 }
    requires turns { piece.turns < 2 ^ 60 }
    ensures { result ≡ (if ends_piece spot.now.before spot.now.operation spot.now.number spot.now.count
        then longer piece (cycles_of table.now spot.now.operation) (weight_of spot.now.operation) else least) }
{
    if ends_piece(spot) {
        longer(
            piece,
            cycles_of(table, &spot.operation),
            weight_of(&spot.operation),
        )
    } else {
        least()
    }
}

/// The piece that ends with a branch's slot that is annulled.
fn annulled(table: &CycleTable, piece: Piece, spot: &Spot) -> Piece
    requires cycles { piece.cycles < 2 ^ 60 }
    requires turns { piece.turns < 2 ^ 60 }
    ensures { result ≡ (if is_branch spot.now.before then longer piece (slot_cycles table.now) 1 else least) }
{
    match &spot.before {
        Operation::BranchOnCondition(_) => longer(piece, slot_cycles(table), 1),
        _ => least(),
    }
}

/// The dearer one of the pieces that end with a word.
fn ending(table: &CycleTable, piece: Piece, spot: &Spot) -> Piece
    requires number { spot.now.number < spot.now.count }
    requires cycles { piece.cycles < 2 ^ 60 }
    requires turns { piece.turns < 2 ^ 60 }
    ensures within { (ended : Piece) →
        Ends table.now piece spot.now.before spot.now.operation spot.now.number spot.now.count ended →
        IsWithin result ended }
    ensures is { (result ≡ least)
        ⊎ Ends table.now piece spot.now.before spot.now.operation spot.now.number spot.now.count result }
    ensures some { 1 ≤ result.turns }
{
    dearer(whole(table, piece, spot), annulled(table, piece, spot))
}

/// A piece with a word more, where it goes on behind it, else none.
fn going_on(table: &CycleTable, piece: Piece, spot: &Spot) -> Piece
    requires cycles { piece.cycles < 2 ^ 60 }
    requires turns { piece.turns < 2 ^ 60 }
    ensures is { result ≡ kept_on (turns_off spot.now.before spot.now.operation)
        (longer piece (cycles_of table.now spot.now.operation) (weight_of spot.now.operation)) }
    ensures few_cycles { result.cycles ≤ piece.cycles + 2 ^ 35 }
    ensures few_turns { result.turns ≤ piece.turns + 25 }
{
    if turns_off(spot) {
        no_words()
    } else {
        longer(
            piece,
            cycles_of(table, &spot.operation),
            weight_of(&spot.operation),
        )
    }
}

/// The dearest piece of a block by the turn.
pub fn dearest_in_block(table: &CycleTable, image: &Image, function: usize, block: usize) -> Piece
    requires keeps { parts_keep image.now ≡ Ok tt }
    requires block { IsBlock image.now function block }
    ensures { IsDearestOf table.now image.now function block result }
{
    let count = words_in(image, function, block);
    let mut dearest = least();
    let mut piece = no_words();
    let mut before = Operation::Nothing;
    let mut called = None;
    for number in 0..count {
        let spot = spot_at(image, (function, block, number), count, before, called);
        dearest = dearer(dearest, ending(table, piece, &spot));
        piece = going_on(table, piece, &spot);
        before = spot.operation;
        called = spot.callee;
    }
    dearest
}

/// The dearest piece of a function by the turn.
fn dearest_in_function(table: &CycleTable, image: &Image, function: usize) -> Piece
    requires keeps { parts_keep image.now ≡ Ok tt }
    requires function { function < length image.now.functions }
    ensures some { 1 ≤ result.turns }
    ensures within { (b : ℕ) → IsBlock image.now function b → AreWithin table.now image.now result function b }
    ensures is { (result ≡ least)
        ⊎ ((b : ℕ) × IsBlock image.now function b × IsOfBlock table.now image.now function b result) }
{
    let mut dearest = least();
    for block in 0..function_at(image, function).blocks.len() {
        dearest = dearer(dearest, dearest_in_block(table, image, function, block));
    }
    dearest
}

/// The dearest piece of a block of an accepted image by the turn; none where the image has no such block.
pub fn dearest_of(
    table: &CycleTable,
    accepted: &Accepted,
    function: usize,
    block: usize,
) -> Option<Piece>
    ensures { MatchOption result (IsBlock accepted.now function block → ⊥)
        (λ piece. IsDearestOf table.now accepted.now function block piece) }
{
    let image = accepted.image();
    image.keeps_its_format();
    let found = image.functions().get(function)?;
    if block < found.blocks.len() {
        Some(dearest_in_block(table, image, function, block))
    } else {
        None
    }
}

/// The dearest piece of an image by the turn.
pub fn dearest_piece(table: &CycleTable, image: &Image) -> Piece
    requires { parts_keep image.now ≡ Ok tt }
    ensures { IsDearest table.now image.now result }
{
    let mut dearest = least();
    for function in 0..image.functions().len() {
        dearest = dearer(dearest, dearest_in_function(table, image, function));
    }
    dearest
}
