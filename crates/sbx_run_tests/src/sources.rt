//! Sources, and the images that they mean.
use sbx_asm::assemble;
use sbx_image::Image;
use std::alloc::{AllocError, Global};

/// A source: these pieces, and then the functions of a chain, if there are any.
#[derive(Clone, Copy)]
pub(crate) struct Source {
    pub(crate) pieces: &'static [&'static str],
    pub(crate) links: Option<&'static Links>,
}

/// Functions `f1` to `f39`, each of which calls the next. The last is written out. Each other one, from a number on,
/// declares the same, has `slot` with its number between the two in its call's delay slot, and `back` in its return's.
pub(crate) struct Links {
    pub(crate) from: u32,
    pub(crate) declared: &'static str,
    pub(crate) slot: (&'static str, &'static str),
    pub(crate) back: &'static str,
    pub(crate) last: &'static str,
    pub(crate) last_fuel: u32,
}

impl Links {
    /// A function: it has 53 turns more than the one that it calls, and room for a frame more.
    fn push(&self, text: &mut String, number: u32) -> Result<(), AllocError> {
        let next = number.saturating_add(1);
        let room = 40u32.saturating_sub(number).saturating_mul(96);
        let after = 39u32.saturating_sub(number).saturating_mul(53);
        let fuel = self.last_fuel.saturating_add(after);
        write!(
            text,
            ".function f{number},framed,96,{room},{fuel}\n{}.fuel {fuel}\n save %sp,-96,%sp\n call f{next}\n{}{number}{}\n ret\n{}",
            self.declared, self.slot.0, self.slot.1, self.back
        )
    }

    /// All of them.
    fn push_all(&self, text: &mut String) -> Result<(), AllocError> {
        for number in self.from..39 {
            self.push(text, number)?;
        }
        text.push_str(self.last)
    }
}

impl Source {
    /// The source as text.
    fn text(&self, alloc: Global) -> Result<String, AllocError> {
        let mut text = String::new(alloc);
        for piece in self.pieces {
            text.push_str(*piece)?;
        }
        if let Some(links) = self.links {
            links.push_all(&mut text)?;
        }
        Ok(text)
    }

    /// The image that it means, if it means one.
    pub(crate) fn image(&self, alloc: Global) -> Option<Image> {
        match self.text(alloc) {
            Ok(text) => assembled(alloc, text.as_bytes()),
            Err(AllocError) => None,
        }
    }
}

/// The image of a text, if it means one.
pub(crate) fn assembled(alloc: Global, text: &[u8]) -> Option<Image> {
    match assemble(alloc, text) {
        Ok(image) => Some(image),
        Err(_fault) => None,
    }
}

/// A leaf function that may take 100 turns.
pub(crate) const BARE: &str = ".services exit,get,put\n.function main,leaf,0,0,100\n.fuel 100\n";

/// Puts `Hi` out, and exits with 0.
pub(crate) const HELLO: &str = " mov 72,%o0\n ta 2\n mov 105,%o0\n ta 2\n mov 0,%o0\n ta 0\n";

/// Gets a byte and puts it out.
pub(crate) const COPY: &str = " ta 1\n ta 2\n mov 0,%o0\n ta 0\n";

/// Copies at most 1,000 bytes of input to the output.
pub(crate) const ECHO: &str = ".services exit,get,put
.function main,framed,96,96,16030
.fuel 16030
 save %sp,-96,%sp
 mov 1000,%l0
.block loop
.cell %l0,1,1000,0
.fuel 4
.term %l0,16
 ta 1
 cmp %o0,-1
 be done
 nop
.block body
.cell %o0,0,255,0
.cell %l0,1,1000,0
.fuel -4
.term %l0,16
 ta 2
 deccc %l0
 bne loop
 nop
.block done
.fuel 4
 mov 0,%o0
 ta 0
";

/// The same, for 3 MiB.
pub(crate) const LONG_ECHO: &str = ".services exit,get,put
.function main,framed,96,96,50331678
.fuel 50331678
 save %sp,-96,%sp
 sethi 3072,%l0
.block loop
.cell %l0,1,3145728,0
.fuel 4
.term %l0,16
 ta 1
 cmp %o0,-1
 be done
 nop
.block body
.cell %o0,0,255,0
.cell %l0,1,3145728,0
.fuel -4
.term %l0,16
 ta 2
 deccc %l0
 bne loop
 nop
.block done
.fuel 4
 mov 0,%o0
 ta 0
";

/// Asks for three bytes, and exits with the third.
pub(crate) const THREE: &str = ".services exit,get
.function main,leaf,0,0,18
.fuel 18
 ta 1
 ta 1
 ta 1
 ta 0
";

/// Puts `Hi` out in as many turns as it may take.
pub(crate) const GREETING: &str = ".services exit,put
.function main,leaf,0,0,16
.fuel 16
 mov 72,%o0
 ta 2
 mov 105,%o0
 ta 2
 mov 0,%o0
 ta 0
";

/// Never ends. No verifier accepts it.
pub(crate) const ENDLESS: &str = ".services exit
.function main,leaf,0,0,0
.fuel 0
 ba main
 nop
";

/// Counts down from 10; what a round takes stands between this and the rest.
pub(crate) const COUNTDOWN: &str = ".services exit,get,put
.function main,framed,96,96,75
.fuel 75
 save %sp,-96,%sp
 mov 10,%l0
.block loop
.cell %l0,1,1000,0
.fuel 9
";

pub(crate) const COUNTDOWN_REST: &str = " nop
 deccc %l0
 bne loop
 nop
.block done
.fuel 9
 mov 33,%o0
 ta 2
 ta 0
";

/// The beginning of a framed function that may take 100 turns.
pub(crate) const FRAMED: &str =
    ".services exit,get,put\n.function main,framed,96,96,100\n.fuel 100\n save %sp,-96,%sp\n";

/// A framed function that calls a leaf with 32, and puts out what comes back.
pub(crate) const CALLER: &str = " save %sp,-96,%sp
 mov 32,%o0
 call inc1
 nop
 ta 2
 mov 0,%o0
 ta 0
.function inc1,leaf,0,0,2
";

/// What the caller declares.
pub(crate) const CALLER_OF_39: &str =
    ".services exit,get,put\n.function main,framed,96,96,39\n.fuel 39\n";

/// What the leaf declares, and its body.
pub(crate) const BYTES: &str = ".param 0,254,0\n.result 1,255,0\n";

pub(crate) const INCREMENT: &str = ".fuel 2\n retl\n add %o0,1,%o0\n";

/// The first function of a chain, which exits with 0.
pub(crate) const CHAIN: &str = ".services exit,get,put
.function f0,framed,96,3840,2102
";

pub(crate) const CHAIN_REST: &str = ".fuel 2102
 save %sp,-96,%sp
 call f1
 nop
 mov 0,%o0
 ta 0
";

/// The others; the last puts `!` out.
pub(crate) const LINKS: Links = Links {
    from: 1,
    declared: "",
    slot: (" nop ! ", ""),
    back: " restore\n",
    last: LAST,
    last_fuel: 57,
};

const LAST: &str = ".function f39,framed,96,96,57
.fuel 57
 save %sp,-96,%sp
 mov 33,%o0
 ta 2
 ret
 restore
";

/// The first two functions of a chain that exits with what the second one's RESTORE makes, 42.
pub(crate) const RESULT: &str = ".fuel 2102
 save %sp,-96,%sp
 call f1
 nop
 ta 0
.function f1,framed,96,3744,2072
.result 42,42,0
.fuel 2072
 save %sp,-96,%sp
 call f2
 nop
 mov 41,%l0
 ret
 restore %l0,1,%o0
";

pub(crate) const RESULT_LINKS: Links = Links { from: 2, ..LINKS };

/// Any word.
const WORDS: &str = ".param -2147483648,2147483647,0\n.result -2147483648,2147483647,0\n";

/// Rounds of a chain; what the first function declares and the count of rounds stand before this. The last word is put
/// out.
pub(crate) const ROUNDS: &str = " mov 0,%l2
.block loop
.cell %l0,1,30000,0
.cell %l2,-2147483648,2147483647,0
.fuel 28
.term %l0,2071
 call f1
 add %l2,%l0,%o0
 mov %o0,%l2
 deccc %l0
 bne loop
 nop
";

/// Puts a word out, and exits with 0.
pub(crate) const WORD_OUT: &str = ".block done
.cell %l2,-2147483648,2147483647,0
.fuel 28
 srl %l2,24,%o0
 ta 2
 srl %l2,16,%o0
 ta 2
 srl %l2,8,%o0
 ta 2
 mov %l2,%o0
 ta 2
 mov 0,%o0
 ta 0
";

/// The other functions of the rounds: each passes a word on, and adds 1 to what comes back.
pub(crate) const ROUNDS_LINKS: Links = Links {
    from: 1,
    declared: WORDS,
    slot: (" xor %i0,", ",%o0"),
    back: " restore %o0,1,%o0\n",
    last: ROUNDS_LAST,
    last_fuel: 51,
};

const ROUNDS_LAST: &str = ".function f39,framed,96,96,51
.param -2147483648,2147483647,0
.result -2147483648,2147483647,0
.fuel 51
 save %sp,-96,%sp
 ret
 restore %i0,1,%o0
";

/// Rounds of a call with a frame and one without; the same stands before this.
pub(crate) const CALLS: &str = " mov 1,%l2
.block loop
.cell %l0,1,3000000,0
.cell %l2,-2147483648,2147483647,0
.fuel 28
.term %l0,63
 call framed
 mov %l2,%o0
 call leaf
 xor %o0,%l0,%o0
 mov %o0,%l2
 deccc %l0
 bne loop
 nop
";

/// The functions that these call.
pub(crate) const CALLED: &str = ".function framed,framed,96,96,52
.param -2147483648,2147483647,0
.result -2147483648,2147483647,0
.fuel 52
 save %sp,-96,%sp
 sll %i0,3,%l0
 ret
 restore %i0,%l0,%o0
.function leaf,leaf,0,0,3
.param -2147483648,2147483647,0
.result -2147483648,2147483647,0
.fuel 3
 srl %o0,5,%o1
 retl
 xor %o0,%o1,%o0
";

/// Two bytes of data that may be read alone, and a double word behind them, on the next page, that may be written.
pub(crate) const TWO_REGIONS: &str =
    ".services exit,put\n.region ro\n.byte 72,105\n.region rw\n.skip 8\n";

/// Puts out the first byte, and has the address of the double word in `%g2`.
pub(crate) const BETWEEN_REGIONS: &str = ".text
.function main,leaf,0,0,13
.fuel 13
 sethi 512,%g1
 ldub [%g1],%o0
 ta 2
 sethi 516,%g2
";

/// Exits with 0.
pub(crate) const EXITS: &str = " mov 0,%o0\n ta 0\n";
