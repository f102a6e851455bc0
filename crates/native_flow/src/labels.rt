//! Where the blocks of a program begin: at the image's own blocks, and behind its calls.
ghost use Rattle.std.specs.Prelude.{◌≡◌, ℕ, ◌+◌, ◌-◌, ◌*◌, ◌/◌, ◌<◌, ◌≤◌, ◌^◌, ◌++◌, ◌∷◌, [], length, IfOk};
ghost use Rattle.v8_meaning.specs.Operands.{target};
ghost use Rattle.sbx_image.specs.Order.{IsBlock, IsFunction, block_end, code_end, function_end};
ghost use Rattle.sbx_image.specs.Rules.{code_start};
ghost use Rattle.sbx_flat.specs.Turns.{asked};
ghost use Rattle.native_flow.specs.Labelling.{AreStarts, HasCalls, IsRow, begins_at, block_or_end, function_or_end};
ghost use Rattle.native_flow.specs.Labelling.{Rises, is_call, label_at, word_address};

use sbx_flat::asked;
use sbx_image::Image;
use std::alloc::{AllocError, Global};
use v8_map::CODE_START;
use v8_meaning::Operation;

/// A call: its address, and the function's that it calls.
#[derive(Clone, Copy)]
pub(crate) struct Site {
    pub address: u32,
    pub entry: u32,
}

/// Where the blocks of a program begin, as far as they are noted.
#[derive(Drop)]
struct BlockStarts {
    /// The addresses, ascending.
    starts: Vec<u32>,
    /// The numbers of the functions that they lie in.
    owners: Vec<usize>,
}

/// The labels of a program, by the addresses of the words where they begin. Label 0 is the run's start, which stands
/// before all words.
#[derive(Drop)]
pub(crate) struct Labels {
    /// The addresses, ascending; each one's label is its place and 1.
    pub starts: Vec<u32>,
    /// The numbers of the functions that they lie in.
    pub owners: Vec<usize>,
    /// The calls, by address.
    pub sites: Vec<Site>,
    pub ghost few: { length starts.items ≤ 65536 },
    pub ghost rise: { Rises starts.items },
}

/// Where the code of an image ends.
pub(crate) fn code_end(image: &Image) -> u32
    ensures { result ≡ code_end image.now }
{
    CODE_START + image.word_count() * 4
}

/// Where the code of a function ends: where the next one begins.
pub(crate) fn function_end(image: &Image, number: usize) -> u32
    requires { number < length image.now.functions }
    ensures { result ≡ function_end image.now number }
{
    match image.functions().get(number + 1) {
        Some(next) => next.entry,
        None => code_end(image),
    }
}

/// Whether a word is a call.
fn is_call(word: u32) -> bool
    ensures { result ≡ is_call (asked word) }
{
    matches!(asked(word), Operation::Call(_))
}

/// Whether a block of the program begins at a word of the image's block that begins at the first one.
fn begins_at(words: &[u32], first: usize, k: usize) -> bool
    requires from { first ≤ k }
    requires within { k < length words.now }
    ensures { result ≡ begins_at words.now first k }
{
    k == first || k >= first + 2 && is_call(words[k - 2])
}

/// The address of a word of the code.
pub(crate) fn word_address(k: usize) -> u32
    requires { k ≤ 65536 }
    ensures { result ≡ word_address k }
{
    CODE_START + 4 * k as u32
}

/// Which word of the code is at an address.
pub(crate) fn word_place(address: u32) -> usize
    requires { code_start ≤ address }
    ensures { result ≡ (address - code_start) / 4 }
{
    ((address - CODE_START) / 4) as usize
}

/// Where a block of the image begins, or behind the last one its function ends.
#[tactic(auto, using(crate::proofs::Starting::function_is))]
fn block_or_end(image: &Image, number: usize, block: usize) -> u32
    requires { IsFunction image.now number }
    ensures { result ≡ block_or_end image.now number block }
{
    match image.functions()[number].blocks.as_slice().get(block) {
        Some(it) => it.address,
        None => function_end(image, number),
    }
}

/// The words of a block of the image, by number: the first one, and the one behind the last.
fn row(image: &Image, number: usize, block: usize) -> (usize, usize)
    requires is { IsBlock image.now number block }
    requires fits { block + 1 < 2 ^ 64 }
    ensures row { IsRow image.now number block result.0 result.1 }
    ensures few { result.1 ≤ 65536 }
{
    image.keeps_its_format();
    let first = word_place(block_or_end(image, number, block));
    let last = word_place(block_or_end(image, number, block + 1));
    (first, last)
}

/// The calls of an image.
fn sites_of(alloc: Global, image: &Image) -> Result<Vec<Site>, AllocError>
    ensures { IfOk result (λ sites. HasCalls image.now sites.items) }
{
    let mut sites = Vec::new(alloc);
    let words = image.words();
    for k in 0..image.word_count() as usize {
        if let Operation::Call(displacement) = asked(words[k]) {
            note_site(&mut sites, word_address(k), displacement)?;
        }
    }
    Ok(sites)
}

/// One call more.
fn note_site(sites: &mut Vec<Site>, address: u32, displacement: u32) -> Result<(), AllocError>
    ensures { IfOk result (λ _. sites.new.items ≡ sites.old.items
        ++ (record { address = address; entry = target address displacement }) ∷ []) }
{
    let entry = address.wrapping_add(displacement.wrapping_mul(4));
    sites.push(Site { address, entry })?;
    Ok(())
}

impl BlockStarts {
    /// Notes that a block of the program begins at an address in a function.
    fn note(&mut self, address: u32, number: usize) -> Result<(), AllocError>
        ensures starts { IfOk result (λ _. self.new.starts.items ≡ self.old.starts.items ++ address ∷ []) }
        ensures owners { IfOk result (λ _. self.new.owners.items ≡ self.old.owners.items ++ number ∷ []) }
    {
        self.starts.push(address)?;
        self.owners.push(number)?;
        Ok(())
    }

    /// Notes the blocks of the program that begin in a block of the image.
    fn note_block(&mut self, image: &Image, number: usize, block: usize) -> Result<(), AllocError>
        requires is { IsBlock image.now number block }
        requires fits { block + 1 < 2 ^ 64 }
        requires before { AreStarts image.now (block_or_end image.now number block)
            self.old.starts.items self.old.owners.items }
        ensures { IfOk result (λ _. AreStarts image.now (block_or_end image.now number (block + 1))
            self.new.starts.items self.new.owners.items) }
    {
        image.keeps_its_format();
        let words = image.words();
        let (first, last) = row(image, number, block);
        for k in first..last {
            if begins_at(words, first, k) {
                self.note(word_address(k), number)?;
            }
        }
        Ok(())
    }

    /// Notes the blocks of the program that begin in a function.
    fn note_function(&mut self, image: &Image, number: usize) -> Result<(), AllocError>
        requires is { IsFunction image.now number }
        requires before { AreStarts image.now (function_or_end image.now number)
            self.old.starts.items self.old.owners.items }
        ensures { IfOk result (λ _. AreStarts image.now (function_or_end image.now (number + 1))
            self.new.starts.items self.new.owners.items) }
    {
        image.keeps_its_format();
        for block in 0..image.functions()[number].blocks.len() {
            self.note_block(image, number, block)?;
        }
        Ok(())
    }
}

impl Labels {
    /// The labels of an image.
    pub fn of(alloc: Global, image: &Image) -> Result<Labels, AllocError>
        ensures starts { IfOk result (λ labels.
            AreStarts image.now (code_end image.now) labels.starts.items labels.owners.items) }
        ensures sites { IfOk result (λ labels. HasCalls image.now labels.sites.items) }
    {
        image.keeps_its_format();
        let sites = sites_of(alloc, image)?;
        let mut noted = BlockStarts {
            starts: Vec::new(alloc),
            owners: Vec::new(alloc),
        };
        for number in 0..image.functions().len() {
            noted.note_function(image, number)?;
        }
        let BlockStarts { starts, owners } = noted;
        Ok(Labels {
            starts,
            owners,
            sites,
        })
    }

    /// The label of what is never reached: of an address where no block begins.
    pub fn nowhere(&self) -> u32
        ensures { result ≡ length self.now.starts.items + 1 }
    {
        self.starts.len() as u32 + 1
    }

    /// The label of an address.
    pub fn at(&self, address: u32) -> u32
        ensures { result ≡ label_at self.now.starts.items address }
    {
        match self.starts.as_slice().binary_search(&address) {
            Ok(place) => place as u32 + 1,
            Err(_) => self.nowhere(),
        }
    }

    /// The label where the function of a number returns.
    pub fn returns(&self, number: usize) -> u32
        requires { number < 65536 }
        ensures { result ≡ length self.now.starts.items + 2 + number }
    {
        self.nowhere() + 1 + number as u32
    }
}
