//! Calls among the functions that compilers wrote.
use fit_blocks::{Obstacle, Stops};
use fit_code::{NO_LINE, Naming, SourceLine};
use fit_gas::{AddressPart, Assembly, CodeItem, Linked, SymbolPlace, owned};
use v8_formats::{Instr, Reg, decode};

/// A function that a walk is in, up to its item of a number.
#[derive(Clone, Copy)]
struct VisitedFunction {
    code: usize,
    place: usize,
}

/// A walk over the functions that are called, up to what stops it. What is called through a pointer has the number
/// behind all functions, and calls those whose addresses are taken.
#[derive(Drop)]
struct CallWalk<'s, 'w, 'l> {
    stops: &'w mut Stops,
    source: &'s Assembly,
    linked: &'w Linked<'l>,
    /// The functions whose addresses are taken.
    taken: &'w [usize],
    /// The functions that the walk is in, each called by the one before it.
    open: Vec<VisitedFunction>,
    /// For each function whether the walk came to it.
    entered: Vec<bool>,
    /// Functions that were left, callees before their callers but in rounds.
    left: Vec<usize>,
}

impl CallWalk<'_, '_, '_> {
    /// Goes on to a function, if the walk didn't come to it before.
    fn enter(&mut self, code: usize) {
        let entered = self.entered.as_mut_slice();
        if code < entered.len() && !entered[code] {
            entered[code] = true;
            let progress = VisitedFunction { code, place: 0 };
            self.stops.memory.push(&mut self.open, progress);
        }
    }

    /// Goes on to the function that is called by a symbol at a line.
    fn go_into(&mut self, symbol: usize, line: SourceLine) {
        match self.linked.place(symbol) {
            SymbolPlace::Function(code) => self.enter(code),
            _ => self
                .stops
                .note(line, Obstacle::Named(Naming::NotDefined, symbol)),
        }
    }

    /// Goes on to what an instruction calls, if it is a call.
    fn go_by(&mut self, item: &CodeItem) {
        match decode(item.word) {
            Instr::Call(_) => {
                if let Some(reference) = item.reference
                    && matches!(reference.part, AddressPart::Target)
                {
                    self.go_into(reference.symbol, item.line);
                }
            }
            Instr::Jmpl(fields) if fields.rd == Reg::O7 => self.enter(self.source.codes.len()),
            _ => {}
        }
    }

    /// Goes from the functions that the walk is in on as far as there is something to do: by one item after the other,
    /// and back from a function that has no more of them.
    fn go_all(&mut self) {
        let (source, taken) = (self.source, self.taken);
        let most = source.items.saturating_add(source.codes.len());
        // A function is entered once, goes by its items and is left.
        for _ in 0..most.saturating_add(taken.len()).saturating_add(1) {
            let Some(progress) = self.open.pop() else {
                break;
            };
            let VisitedFunction { code, place } = progress;
            let item = source
                .codes
                .get(code)
                .and_then(|code| code.items.get(place));
            let is_pointed = code == source.codes.len() && place < taken.len();
            if item.is_none() & !is_pointed {
                self.stops.memory.push(&mut self.left, code);
                continue;
            }
            let place = place.saturating_add(1);
            let next = VisitedFunction { code, place };
            self.stops.memory.push(&mut self.open, next);
            match item {
                _ if self.stops.first.is_some() => {}
                Some(item) => self.go_by(item),
                None => self.enter(taken[progress.place]),
            }
        }
    }
}

/// The numbers of the functions that a run from the entry can come to, callers before those that they call, but where
/// these call them in a round; `taken` has those whose addresses are taken. What calls these through pointers has the
/// number behind all functions. If nothing stopped it before, what does is noted: a call of what stands nowhere, or an
/// entry that does. What is told before the name that is noted comes with it.
pub fn order_of_calls(
    stops: &mut Stops,
    source: &Assembly,
    linked: &Linked,
    taken: &[usize],
    entry: &str,
) -> (Vec<usize>, String) {
    let alloc = stops.memory.alloc;
    let count = source.codes.len().saturating_add(1);
    let entered = stops.memory.repeat(false, count);
    let mut walk = CallWalk {
        stops,
        source,
        linked,
        taken,
        open: Vec::new(alloc),
        entered,
        left: Vec::new(alloc),
    };
    let mut before = String::new(alloc);
    if walk.stops.first.is_none() {
        if let SymbolPlace::Function(number) = linked.global(entry)
            && number < source.codes.len()
        {
            walk.enter(number);
        } else {
            before = owned(&mut walk.stops.memory, entry);
            let none = Obstacle::Named(Naming::NoEntry, source.symbols.len());
            walk.stops.note(NO_LINE, none);
        }
    }
    walk.go_all();
    walk.left.reverse();
    (walk.left, before)
}
