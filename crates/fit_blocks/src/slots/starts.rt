//! The beginnings of a function's body and of its blocks, and the size of its frame.
use crate::points::{ControlFlow, Point, signed};
use crate::stops::Stops;
use fit_code::{Heap, reads, writes};
use v8_formats::{Instr, Operand, Three};
use v8_word::{Cond, Reg};

/// For each place, and the one behind the last, whether a block begins there: at the start, where branches go to, and
/// behind the slots of such as may not be taken. None begins before the start.
pub fn leads_of(memory: &mut Heap, points: &[Point], start: usize) -> Vec<Option<usize>> {
    let mut marked = memory.repeat(None, points.len().saturating_add(1));
    let leads = marked.as_mut_slice();
    if start < leads.len() {
        leads[start] = Some(0);
    }
    for (place, point) in points.iter().enumerate() {
        if let ControlFlow::Branch { cond, to, .. } = point.flow {
            let lead = to.max(start);
            if lead < leads.len() {
                leads[lead] = Some(0);
            }
            let behind = place.saturating_add(2);
            if (cond != Cond::Always) & (behind < leads.len()) {
                leads[behind] = Some(0);
            }
        }
    }
    marked
}

/// Gives what is marked numbers from a first one on, in order; says which comes next.
pub fn number_marked(marked: &mut [Option<usize>], first: usize) -> usize {
    let mut next = first;
    for found in marked {
        if found.is_some() {
            *found = Some(next);
            next = next.saturating_add(1);
        }
    }
    next
}

/// The bytes that SAVE takes from %sp, behind instructions that do nothing but leave a number in the register that it
/// adds; none where that isn't its form or isn't a number.
fn frame_of(before: &[Point], fields: &Three) -> Option<u32> {
    let (register, mut known, mut is_known) = match fields.operand2 {
        Operand::Register(register) => (register, 0, false),
        Operand::Immediate(number) if before.is_empty() => (Reg::G0, number, true),
        Operand::Immediate(_) => return None,
    };
    let mut is_alone = true;
    for point in before {
        let (rd, rs1, number) = match point.step.instr() {
            Instr::Sethi(upper) => (upper.rd, Reg::G0, upper.imm22.wrapping_mul(0x400)),
            Instr::Or(fields) | Instr::Add(fields) => match fields.operand2 {
                Operand::Immediate(number) => (fields.rd, fields.rs1, number),
                Operand::Register(_) => return None,
            },
            // of a number that was there: what is added to get there
            Instr::Xor(fields) => match fields.operand2 {
                Operand::Immediate(number) if fields.rs1 == register => {
                    (fields.rd, fields.rs1, (known ^ number).wrapping_sub(known))
                }
                _ => return None,
            },
            _ => return None,
        };
        is_alone &= rd == register;
        if rs1 == Reg::G0 {
            known = number;
            is_known = true;
        } else {
            known = number.wrapping_add(known);
            is_known &= rs1 == register;
        }
    }
    let is_room = (fields.rs1 == Reg::SP) & (fields.rd == Reg::SP) & (signed(known) < 0);
    if is_alone & is_known & is_room {
        Some(0u32.wrapping_sub(known))
    } else {
        None
    }
}

/// The bytes that an instruction takes from %sp, if it takes a number of them.
fn room_taken(instr: &Instr) -> Option<u32> {
    let (fields, is_sum) = match instr {
        Instr::Add(fields) => (fields, true),
        Instr::Sub(fields) => (fields, false),
        _ => return None,
    };
    match fields.operand2 {
        Operand::Immediate(number) if (fields.rs1 == Reg::SP) & (fields.rd == Reg::SP) => {
            Some(if is_sum {
                number.wrapping_neg()
            } else {
                number
            })
        }
        _ => None,
    }
}

/// Where more room is taken from %sp, and how much, before the first transfer behind SAVE and whatever else names %sp:
/// where a frame has more bytes than SAVE itself can take.
fn more_room(points: &[Point], start: usize) -> Option<(usize, u32)> {
    for place in start..points.len() {
        let Point { step, flow } = &points[place];
        if let Some(number) = room_taken(&step.instr()) {
            return (signed(number) > 0).then_some((place, number));
        }
        let names_it = reads(&step.instr())
            .union(writes(&step.instr()))
            .contains(Reg::SP);
        if names_it | !matches!(flow, ControlFlow::On | ControlFlow::Nothing) {
            return None;
        }
    }
    None
}

/// Whether a branch goes to a point from one place up to another one.
fn is_led_to(points: &[Point], first: usize, last: usize) -> bool {
    let mut is_led_to = false;
    for point in points {
        if let ControlFlow::Branch { to, .. } = point.flow {
            is_led_to |= (first <= to) & (to <= last);
        }
    }
    is_led_to
}

/// The frame of a function, and where its instructions begin; what takes more room behind SAVE does nothing any more.
/// It is a fault where the frame isn't known.
pub fn frame_and_start(stops: &mut Stops, points: &mut [Point]) -> (Option<u32>, usize) {
    for place in 0..points.len() {
        if let Instr::Save(fields) = points[place].step.instr() {
            let start = place.saturating_add(1);
            let mut frame = frame_of(&points[..place], &fields);
            if let Some(taken) = frame
                && let Some((at, more)) = more_room(&*points, start)
                && at < points.len()
                && !is_led_to(&*points, start, at)
            {
                frame = taken.checked_add(more);
                points[at].flow = ControlFlow::Nothing;
            }
            if frame.is_none() {
                let what = "a frame of unknown size, or instructions before SAVE";
                stops.form(points[place].step.line, what);
            }
            return (frame, start);
        }
    }
    (None, 0)
}
