//! What the verifier knows between two words.
ghost use Rattle.std.specs.Prelude.{◌≡◌, IfOk};

use crate::branching::refined_pair;
use crate::entry::{Entry, entry_of_cell, plain_entry, with_range};
use crate::lin::Lin;
use crate::moving::{restore_entries, return_entries, save_entries};
use crate::parts::{PART, PARTS, clear_entries, copy_entries, has_empty, only};
use crate::relation::{Related, Relation, without_location};
use crate::rows::Rows;
use sbx_range::{Cell, Pair, Range, refine_by_value};
use std::alloc::{AllocError, Global};
use std::marker::Model;
use v8_word::Cond;

/// One more than the greatest location: 1 to 31 is a register, 32 + k word k of the frame, and 0 is none.
pub const LOCATIONS: usize = 1_040;

/// What is known of each location, of Y and of the condition codes. Contracts see it as a table, of which `known` says
/// what it knows.
#[derive(Drop)]
pub struct State {
    entries: Rows<Entry>,
    // by parts of 16 locations: in one without a mark nothing is known, and nothing walks over it
    marks: [bool; PARTS],
    y: Option<Range>,
    icc: bool,
    relation: Option<Relation>,
}

impl Model for State {
    ghost use Rattle.std.specs.Prelude.{◌≡◌, length};
    ghost use Rattle.sbx_domain.specs.Known.{Table};
    ghost use Rattle.sbx_domain.specs.Parts.{AreMarked};

    ghost Value = { Table };

    ghost view = { λ s. record { entries = s.entries; y = s.y; icc = s.icc; relation = s.relation } };

    ghost invariant = { λ s. (length s.entries ≡ 1040) × (length s.marks ≡ 65) × AreMarked 0 1040 s.marks s.entries };
}

impl State {
    ghost use Rattle.std.specs.Prelude.{Some, None, true, false, if◌then◌else◌};
    ghost use Rattle.sbx_domain.specs.declared.relation.Relation.TheVariants.{Compared, Signs};
    ghost use Rattle.sbx_domain.specs.Refining.{narrowed_at, narrowed_related, range_of_related, refined, refined_by};
    ghost use Rattle.sbx_domain.specs.Refining.{with_pair};
    ghost use Rattle.std.specs.Prelude.{ℕ};
    ghost use Rattle.sbx_flat.specs.Three.{Three};
    ghost use Rattle.sbx_flat.specs.Operation.TheVariants.{Save};
    ghost use Rattle.sbx_domain.specs.Transfer.{called, restored, transferred, with_codes};
    ghost use Rattle.sbx_domain.specs.Known.{entry_of_cell, form_at, is_empty_range, known, nothing_known, range_at};
    ghost use Rattle.sbx_domain.specs.Known.{started, with_entry, with_icc, with_range, with_y};

    /// Nothing defined, with room for every location.
    pub fn new(alloc: Global) -> Result<Self, AllocError>
        ensures { IfOk result (λ state. known state ≡ nothing_known) }
    {
        Ok(State {
            entries: Rows::new(alloc)?,
            marks: [false; PARTS],
            y: None,
            icc: false,
            relation: None,
        })
    }

    /// What is known of a location; nothing of a number that is none.
    #[tactic(auto, unfolding(crate::specs::Known::known))]
    pub fn entry(&self, location: u16) -> Option<Entry>
        ensures { result ≡ (known self.now).entry location }
    {
        self.entries.get(usize::from(location))
    }

    /// The range of a location, where it is defined.
    pub fn range(&self, location: u16) -> Option<Range>
        ensures { result ≡ range_at (known self.now) location }
    {
        match self.entry(location) {
            Some(entry) => Some(entry.range),
            None => None,
        }
    }

    /// The form of a location, where it has one.
    pub fn form(&self, location: u16) -> Option<Lin>
        ensures { result ≡ form_at (known self.now) location }
    {
        match self.entry(location) {
            Some(entry) => entry.form,
            None => None,
        }
    }

    /// Gives a location a range, or makes it undefined. This is a write: the location has no form then, and a relation
    /// that names it ends. A number that is no location changes nothing.
    pub fn set(&mut self, location: u16, range: Option<Range>)
        ensures { known self.new ≡ with_range location range (known self.old) }
    {
        self.write(location, plain_entry(range));
    }

    /// A write of a location: what was known of it is gone, and so is a relation that names it. A number that is no
    /// location changes nothing.
    pub(crate) fn write(&mut self, location: u16, entry: Option<Entry>)
        ensures { known self.new ≡ with_entry location entry (known self.old) }
    {
        if 0 < location && usize::from(location) < LOCATIONS {
            self.entries.set(location as usize, entry);
            self.marks[location as usize / PART] = true;
            self.relation = without_location(location, self.relation);
        }
    }

    /// Whether the condition codes are defined.
    #[tactic(auto, unfolding(crate::specs::Known::known))]
    pub fn icc(&self) -> bool
        ensures { result ≡ (known self.now).icc }
    {
        self.icc
    }

    /// Says whether the condition codes are defined. They are related to nothing then.
    #[tactic(auto, unfolding(crate::specs::Known::known))]
    pub fn set_icc(&mut self, defined: bool)
        ensures { known self.new ≡ with_icc defined (known self.old) }
    {
        self.icc = defined;
        self.relation = None;
    }

    /// The codes are set, from what they are related to.
    #[tactic(auto, unfolding(crate::specs::Known::known))]
    pub(crate) fn set_codes(&mut self, relation: Option<Relation>)
        ensures { known self.new ≡ with_codes true relation (known self.old) }
    {
        self.icc = true;
        self.relation = relation;
    }

    /// The range of Y, where it is defined.
    #[tactic(auto, unfolding(crate::specs::Known::known))]
    pub fn y(&self) -> Option<Range>
        ensures { result ≡ (known self.now).y }
    {
        self.y
    }

    /// Defines Y, or makes it undefined.
    #[tactic(auto, unfolding(crate::specs::Known::known))]
    pub fn set_y(&mut self, range: Option<Range>)
        ensures { known self.new ≡ with_y range (known self.old) }
    {
        self.y = range;
    }

    /// SAVE, which makes outs ins with their forms; nothing else is known after it.
    pub fn save(&mut self)
        ensures { (frame : ℕ) → (fields : Three) → known self.new ≡ transferred frame (Save fields) (known self.old) }
    {
        save_entries(&mut self.entries, &self.marks);
        self.marks = only(1);
        self.y = None;
        self.icc = false;
        self.relation = None;
    }

    /// The window before: ins become outs with their forms, and globals, codes and Y stay.
    pub(crate) fn pop(&mut self)
        ensures { known self.new ≡ restored (known self.old) }
    {
        restore_entries(&mut self.entries, &self.marks);
        self.marks = only(0);
        self.relation = None;
    }

    /// Where a call's callee has returned: outs are its results, locals, ins and frame words stay, and nothing else is
    /// known.
    pub fn return_with(&mut self, results: &[Range])
        ensures { known self.new ≡ called results.now (known self.old) }
    {
        return_entries(&mut self.entries, results);
        self.marks[0] = true;
        self.y = None;
        self.icc = false;
        self.relation = None;
    }

    /// Nothing is defined any more.
    fn clear(&mut self)
        ensures { known self.new ≡ nothing_known }
    {
        clear_entries(&mut self.entries, &self.marks, 0, LOCATIONS);
        self.marks = [false; PARTS];
        self.y = None;
        self.icc = false;
        self.relation = None;
    }

    /// The start of a block: its cells, each of which starts as itself, and nothing else.
    pub fn start(&mut self, cells: &[Cell])
        ensures { known self.new ≡ started cells.now }
    {
        self.clear();
        let mut left = cells.len();
        while left > 0 {
            left -= 1;
            self.begin(&cells[left]);
        }
    }

    /// A cell starts as itself.
    fn begin(&mut self, cell: &Cell)
        ensures { known self.new ≡ with_entry cell.now.location (Some (entry_of_cell cell.now)) (known self.old) }
    {
        self.write(cell.location, Some(entry_of_cell(cell)));
    }

    /// Makes the other state equal to this one.
    pub fn copy_to(&self, other: &mut State)
        ensures { other.new ≡ self.now }
    {
        copy_entries(&self.entries, &mut other.entries, &self.marks, &other.marks);
        let marks = self.marks;
        other.marks = marks;
        other.y = self.y;
        other.icc = self.icc;
        other.relation = self.relation;
    }

    /// Whether some location's range holds no number.
    #[tactic(auto, unfolding(crate::specs::Known::known))]
    pub fn has_empty_range(&self) -> bool
        ensures some { result ≡ true → (l : ℕ) × (is_empty_range (range_at (known self.now) l) ≡ true) }
        ensures none { result ≡ false → (l : ℕ) → is_empty_range (range_at (known self.now) l) ≡ false }
    {
        has_empty(&self.entries, &self.marks)
    }

    /// Puts a range in the place of a location's, where it is defined. This is no write: its form and the relation
    /// stay.
    fn narrow(&mut self, location: u16, range: Range)
        ensures { known self.new ≡ narrowed_at location range (known self.old) }
    {
        let entry = with_range(range, self.entry(location));
        if usize::from(location) < LOCATIONS {
            self.entries.set(location as usize, entry);
            self.marks[location as usize / PART] = true;
        }
    }

    fn narrow_related(&mut self, related: Related, range: Range)
        ensures { known self.new ≡ narrowed_related related range (known self.old) }
    {
        match related {
            Related::Location(location) => self.narrow(location, range),
            Related::Word(_) => {}
        }
    }

    fn range_of(&self, related: Related) -> Option<Range>
        ensures { result ≡ range_of_related (known self.now) related }
    {
        match related {
            Related::Location(location) => self.range(location),
            Related::Word(word) => Some(sbx_range::known(word)),
        }
    }

    /// Takes over what is left of two operands' ranges; says whether something is.
    fn narrow_pair(&mut self, x: Related, y: Related, pair: Option<Pair>) -> bool
        ensures answer { with_pair x y (known self.old) pair ≡ (if result then Some (known self.new) else None) }
        ensures refused { result ≡ false → self.new ≡ self.old }
    {
        match pair {
            Some(pair) => {
                self.narrow_related(y, pair.right);
                self.narrow_related(x, pair.left);
                true
            }
            None => false,
        }
    }

    fn refine_compared(&mut self, cond: Cond, x: Related, y: Related) -> bool
        ensures answer { refined_by cond (Some (Compared x y)) (known self.old) ≡
            (if result then Some (known self.new) else None) }
        ensures refused { result ≡ false → self.new ≡ self.old }
    {
        match (self.range_of(x), self.range_of(y)) {
            (Some(a), Some(b)) => self.narrow_pair(x, y, refined_pair(cond, x, y, a, b)),
            _ => true,
        }
    }

    fn refine_signs(&mut self, cond: Cond, location: u16) -> bool
        ensures answer { refined_by cond (Some (Signs location)) (known self.old) ≡
            (if result then Some (known self.new) else None) }
        ensures refused { result ≡ false → self.new ≡ self.old }
    {
        let Some(range) = self.range(location) else {
            return true;
        };
        match refine_by_value(cond, range) {
            Some(range) => {
                self.narrow(location, range);
                true
            }
            None => false,
        }
    }

    /// Goes on where a condition holds of the codes, and says whether it can hold. Where it can't the state stays as it
    /// is.
    #[tactic(auto, unfolding(crate::specs::Refining::refined, crate::specs::Known::known))]
    pub fn refine(&mut self, cond: Cond) -> bool
        ensures answer { refined cond (known self.old) ≡ (if result then Some (known self.new) else None) }
        ensures refused { result ≡ false → self.new ≡ self.old }
    {
        match self.relation {
            Some(Relation::Compared(x, y)) => self.refine_compared(cond, x, y),
            Some(Relation::Signs(location)) => self.refine_signs(cond, location),
            None => true,
        }
    }
}
