//! Images of the greatest sizes, as sources that are made piece by piece: each is accepted, and refused where a turn
//! less is declared. What a function declares is counted by the weights of the rules: 25 turns for a SAVE or a RESTORE,
//! 3 for an exit, 1 for others.
use crate::calls::judged;
use crate::sources::assembled;
use crate::verdicts::is_shown;
use sbx_image::Image;
use std::alloc::{AllocError, Global};

/// So many pieces: between the strings of one stand its number, room and fuel, its fuel again, and the number of the
/// next one. The last piece has a frame's room and `turns` more than `last`, and each other one as much more than the
/// piece after it.
struct Pieces {
    strings: [&'static str; 6],
    count: u32,
    turns: u32,
    last: u32,
    /// What stands behind the pieces.
    end: &'static str,
    /// The words of the image, the first lines' included.
    words: u32,
}

impl Pieces {
    fn push(&self, text: &mut String, number: u32) -> Result<(), AllocError> {
        let left = self.count.saturating_sub(number).saturating_add(1);
        let room = left.saturating_mul(96);
        let fuel = left.saturating_mul(self.turns).saturating_add(self.last);
        let next = number.saturating_add(1);
        let [begins, framed, budget, fueled, calls, ends] = self.strings;
        write!(
            text,
            "{begins}{number}{framed}{room}{budget}{fuel}{fueled}{fuel}{calls}{next}{ends}"
        )
    }

    /// These first lines, and the pieces.
    fn text(&self, alloc: Global, first: &str) -> Result<String, AllocError> {
        let mut text = String::new(alloc);
        text.push_str(first)?;
        for number in 1..=self.count {
            self.push(&mut text, number)?;
        }
        text.push_str(self.end)?;
        Ok(text)
    }
}

/// Whether an image has so many words, and is accepted, or refused with a line.
fn is_told(alloc: Global, image: Image, words: u32, told: &str) -> bool {
    let has_words = image.word_count() == words;
    match judged(alloc, image) {
        Ok(_accepted) => has_words && told == "accepted",
        Err(refused) => has_words && is_shown(alloc, &refused.1, told),
    }
}

/// Whether the image of a text is told so.
fn is_text_told(alloc: Global, text: &[u8], words: u32, told: &str) -> bool {
    match assembled(alloc, text) {
        Some(image) => is_told(alloc, image, words, told),
        None => false,
    }
}

/// Whether the image of these first lines and pieces is told so.
fn is_so(alloc: Global, first: &str, pieces: &Pieces, told: &str) -> bool {
    match pieces.text(alloc, first) {
        Ok(text) => is_text_told(alloc, text.as_bytes(), pieces.words, told),
        Err(AllocError) => false,
    }
}

/// One block of 65,536 words.
const STRAIGHT: Pieces = Pieces {
    strings: [" nop ! ", " ", " ", " ", " ", "\n"],
    count: 65_534,
    turns: 1,
    last: 3,
    end: " mov 0,%o0\n ta 0\n",
    words: 65_536,
};

/// 4,096 blocks; each but the first and the last has 64 cells and 8 terms, and 15 words.
const BLOCKS: Pieces = Pieces {
    strings: [".block b", " ! ", CELLS, " ! ", " ", TERMS],
    count: 4_094,
    turns: 15,
    last: 4,
    end: ".block end\n.fuel 4\n mov 0,%o0\n ta 0\n",
    words: 61_477,
};

/// 256 functions, each but the last of which calls the next one.
const CALLS: Pieces = Pieces {
    strings: [
        ".function f",
        ",framed,96,",
        ",",
        "\n.fuel ",
        "\n save %sp,-96,%sp\n call f",
        "\n nop\n ret\n restore\n",
    ],
    count: 254,
    turns: 53,
    last: 2,
    end: ".function f255,leaf,0,0,2\n.fuel 2\n retl\n nop\n",
    words: 1_277,
};

/// First lines, pieces, and what is told.
static ROWS: [(&str, &Pieces, &str); 6] = [
    (
        ".services exit\n.function main,leaf,0,0,65538\n.fuel 65538\n",
        &STRAIGHT,
        "accepted",
    ),
    (
        ".services exit\n.function main,leaf,0,0,65537\n.fuel 65537\n",
        &STRAIGHT,
        "refused V14 in function 0 at 0007FFFC",
    ),
    (ROOMY, &BLOCKS, "accepted"),
    (SCANTY, &BLOCKS, "refused V14 in function 0 at 00040100"),
    (
        ".services exit\n.stack 6\n.function f0,framed,96,24480,13495\n.fuel 13495\n save %sp,-96,%sp\n call f1\n nop\n mov 0,%o0\n ta 0\n",
        &CALLS,
        "accepted",
    ),
    (
        ".services exit\n.stack 6\n.function f0,framed,96,24480,13494\n.fuel 13494\n save %sp,-96,%sp\n call f1\n nop\n mov 0,%o0\n ta 0\n",
        &CALLS,
        "refused V14 in function 0 at 00040010",
    ),
];

#[test]
fn greatest_images_are_told(rt: HostRuntime) {
    for (first, pieces, told) in &ROWS {
        assert!(rt;
            is_so(rt.alloc(), first, pieces, told),
            "{told} {}",
            pieces.words
        );
    }
}

/// A first block that makes each cell 0 in 64 words, with the turns that the function takes.
const ROOMY: &str = ".services exit
.function main,framed,240,240,61503
.fuel 61503
 save %sp,-240,%sp
 mov 0,%o0
 mov 0,%o1
 mov 0,%o2
 mov 0,%o3
 mov 0,%o4
 mov 0,%o5
 mov 0,%l0
 mov 0,%l1
 mov 0,%l2
 mov 0,%l3
 mov 0,%l4
 mov 0,%l5
 mov 0,%l6
 mov 0,%l7
 mov 0,%i0
 mov 0,%i1
 mov 0,%i2
 mov 0,%i3
 mov 0,%i4
 mov 0,%i5
 clr [%sp+64]
 clr [%sp+68]
 clr [%sp+72]
 clr [%sp+76]
 clr [%sp+80]
 clr [%sp+84]
 clr [%sp+88]
 clr [%sp+92]
 clr [%sp+96]
 clr [%sp+100]
 clr [%sp+104]
 clr [%sp+108]
 clr [%sp+112]
 clr [%sp+116]
 clr [%sp+120]
 clr [%sp+124]
 clr [%sp+128]
 clr [%sp+132]
 clr [%sp+136]
 clr [%sp+140]
 clr [%sp+144]
 clr [%sp+148]
 clr [%sp+152]
 clr [%sp+156]
 clr [%sp+160]
 clr [%sp+164]
 clr [%sp+168]
 clr [%sp+172]
 clr [%sp+176]
 clr [%sp+180]
 clr [%sp+184]
 clr [%sp+188]
 clr [%sp+192]
 clr [%sp+196]
 clr [%sp+200]
 clr [%sp+204]
 clr [%sp+208]
 clr [%sp+212]
 clr [%sp+216]
 clr [%sp+220]
 clr [%sp+224]
 clr [%sp+228]
 clr [%sp+232]
 clr [%sp+236]
";

/// The same with a turn less.
const SCANTY: &str = ".services exit
.function main,framed,240,240,61502
.fuel 61502
 save %sp,-240,%sp
 mov 0,%o0
 mov 0,%o1
 mov 0,%o2
 mov 0,%o3
 mov 0,%o4
 mov 0,%o5
 mov 0,%l0
 mov 0,%l1
 mov 0,%l2
 mov 0,%l3
 mov 0,%l4
 mov 0,%l5
 mov 0,%l6
 mov 0,%l7
 mov 0,%i0
 mov 0,%i1
 mov 0,%i2
 mov 0,%i3
 mov 0,%i4
 mov 0,%i5
 clr [%sp+64]
 clr [%sp+68]
 clr [%sp+72]
 clr [%sp+76]
 clr [%sp+80]
 clr [%sp+84]
 clr [%sp+88]
 clr [%sp+92]
 clr [%sp+96]
 clr [%sp+100]
 clr [%sp+104]
 clr [%sp+108]
 clr [%sp+112]
 clr [%sp+116]
 clr [%sp+120]
 clr [%sp+124]
 clr [%sp+128]
 clr [%sp+132]
 clr [%sp+136]
 clr [%sp+140]
 clr [%sp+144]
 clr [%sp+148]
 clr [%sp+152]
 clr [%sp+156]
 clr [%sp+160]
 clr [%sp+164]
 clr [%sp+168]
 clr [%sp+172]
 clr [%sp+176]
 clr [%sp+180]
 clr [%sp+184]
 clr [%sp+188]
 clr [%sp+192]
 clr [%sp+196]
 clr [%sp+200]
 clr [%sp+204]
 clr [%sp+208]
 clr [%sp+212]
 clr [%sp+216]
 clr [%sp+220]
 clr [%sp+224]
 clr [%sp+228]
 clr [%sp+232]
 clr [%sp+236]
";

/// The registers but %sp, %o7, %fp and %i7, and 44 slots; the locals are small.
const CELLS: &str = "
.cell %o0,-2147483648,2147483647,0
.cell %o1,-2147483648,2147483647,0
.cell %o2,-2147483648,2147483647,0
.cell %o3,-2147483648,2147483647,0
.cell %o4,-2147483648,2147483647,0
.cell %o5,-2147483648,2147483647,0
.cell %l0,0,99,0
.cell %l1,0,99,0
.cell %l2,0,99,0
.cell %l3,0,99,0
.cell %l4,0,99,0
.cell %l5,0,99,0
.cell %l6,0,99,0
.cell %l7,0,99,0
.cell %i0,-2147483648,2147483647,0
.cell %i1,-2147483648,2147483647,0
.cell %i2,-2147483648,2147483647,0
.cell %i3,-2147483648,2147483647,0
.cell %i4,-2147483648,2147483647,0
.cell %i5,-2147483648,2147483647,0
.cell slot 0,-2147483648,2147483647,0
.cell slot 1,-2147483648,2147483647,0
.cell slot 2,-2147483648,2147483647,0
.cell slot 3,-2147483648,2147483647,0
.cell slot 4,-2147483648,2147483647,0
.cell slot 5,-2147483648,2147483647,0
.cell slot 6,-2147483648,2147483647,0
.cell slot 7,-2147483648,2147483647,0
.cell slot 8,-2147483648,2147483647,0
.cell slot 9,-2147483648,2147483647,0
.cell slot 10,-2147483648,2147483647,0
.cell slot 11,-2147483648,2147483647,0
.cell slot 12,-2147483648,2147483647,0
.cell slot 13,-2147483648,2147483647,0
.cell slot 14,-2147483648,2147483647,0
.cell slot 15,-2147483648,2147483647,0
.cell slot 16,-2147483648,2147483647,0
.cell slot 17,-2147483648,2147483647,0
.cell slot 18,-2147483648,2147483647,0
.cell slot 19,-2147483648,2147483647,0
.cell slot 20,-2147483648,2147483647,0
.cell slot 21,-2147483648,2147483647,0
.cell slot 22,-2147483648,2147483647,0
.cell slot 23,-2147483648,2147483647,0
.cell slot 24,-2147483648,2147483647,0
.cell slot 25,-2147483648,2147483647,0
.cell slot 26,-2147483648,2147483647,0
.cell slot 27,-2147483648,2147483647,0
.cell slot 28,-2147483648,2147483647,0
.cell slot 29,-2147483648,2147483647,0
.cell slot 30,-2147483648,2147483647,0
.cell slot 31,-2147483648,2147483647,0
.cell slot 32,-2147483648,2147483647,0
.cell slot 33,-2147483648,2147483647,0
.cell slot 34,-2147483648,2147483647,0
.cell slot 35,-2147483648,2147483647,0
.cell slot 36,-2147483648,2147483647,0
.cell slot 37,-2147483648,2147483647,0
.cell slot 38,-2147483648,2147483647,0
.cell slot 39,-2147483648,2147483647,0
.cell slot 40,-2147483648,2147483647,0
.cell slot 41,-2147483648,2147483647,0
.cell slot 42,-2147483648,2147483647,0
.cell slot 43,-2147483648,2147483647,0
.fuel ";

/// Each local once, and 15 words.
const TERMS: &str = "
.term %l0,1
.term %l1,1
.term %l2,1
.term %l3,1
.term %l4,1
.term %l5,1
.term %l6,1
.term %l7,1
 nop
 nop
 nop
 nop
 nop
 nop
 nop
 nop
 nop
 nop
 nop
 nop
 nop
 nop
 nop
";
