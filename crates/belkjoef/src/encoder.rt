//! An encoder of field blocks (RFC 7541), in a place that C owns.

ghost use Rattle.std.specs.Prelude.{◌≡◌, Option, None, Some, IsSome, MatchOption};
ghost use Rattle.std.specs.Option.{is_some};
ghost use Rattle.std.specs.Coded.{coded_option};
ghost use Rattle.belkjoef.specs.Calls.{OnPlace, FreesPlace};
ghost use Rattle.belkjoef.specs.Coders.{EncodesFields, IsNewEncoder, LimitsEncoder};
ghost use Rattle.belkjoef.specs.Given.{fields_given};
ghost use Rattle.belkjoef.specs.Making.{MakesHeld};
ghost use Rattle.belkjoef.specs.Places.{place_owns};
ghost use Rattle.belkjoef.specs.contracts.encoder.HeldEncoder.{the_row};
ghost use Rattle.belkjoef.specs.declared.encoder.HeldEncoder.{HeldEncoder};

use crate::fields::BjField;
use crate::kept::{KeptFields, recopy};
use crate::loose::Loose;
use crate::numbers::{EMPTY, HELD, LIST_TOO_LARGE, MEMORY, OK};
use crate::output::BjSpan;
use crate::place::HOLDS_ONE;
use h2_ends::Field;
use hpack::{Encoder, list_size};
use std::alloc::Global;
use std::marker::Model;

/// The contents of a place that holds an encoder.
#[derive(Drop)]
pub struct HeldEncoder {
    /// The encoder.
    pub(crate) encoder: Encoder,
    /// Copies of the fields that were encoded last.
    pub(crate) fields: KeptFields,
    /// The block that was made last.
    pub(crate) block: Vec<u8>,
}

/// `bj_encoder`: a place that C owns and that holds an encoder or nothing, as [`crate::BjEnd`]
/// holds an end.
#[repr(C)]
pub struct BjEncoder {
    at: *mut u8,
    state: u64,
    ghost held: { Option HeldEncoder } by { coded_option the_row.coded },
}

impl Model for BjEncoder {
    ghost also_owns = { λ place. place_owns the_row place.at place.state place.held };
}

impl BjEncoder {
    /// Returns whether it holds an encoder.
    pub(crate) fn is_held(&mut self) -> bool
        ensures value { result ≡ is_some self.old.held }
        ensures same { self.new ≡ self.old }
    {
        self.state == HOLDS_ONE
    }

    /// Puts an encoder here, where there is none.
    pub(crate) fn put(&mut self, loose: Loose<HeldEncoder, Global>)
        requires { self.old.held ≡ None }
        ensures { self.new.held ≡ Some loose.value }
    {
        let Loose { at, alloc: _ } = loose;
        self.at = at as *mut u8;
        self.state = HOLDS_ONE;
    }

    /// Takes the encoder that is here.
    pub(crate) fn take(&mut self, alloc: Global) -> Loose<HeldEncoder, Global>
        requires { IsSome self.old.held }
        ensures empty { self.new.held ≡ None }
        ensures value { Some result.value ≡ self.old.held }
    {
        self.state = 0;
        let at = self.at as *mut HeldEncoder;
        Loose { at, alloc }
    }

    /// Puts an encoder back.
    pub(crate) fn keep(&mut self, held: Box<HeldEncoder>)
        requires { self.old.held ≡ None }
        ensures { self.new.held ≡ Some held.value }
    {
        self.put(Loose::of(held));
    }

    /// Takes out the encoder that is here, if any. The place holds nothing until it is put
    /// back.
    pub(crate) fn open(&mut self, alloc: Global) -> Option<Box<HeldEncoder>>
        ensures empty { self.new.held ≡ None }
        ensures value { MatchOption result (self.old.held ≡ None)
            (λ held. self.old.held ≡ Some held.value) }
    {
        if !self.is_held() {
            return None;
        }
        Some(self.take(alloc).into_box())
    }
}

// contract: c (own) A place holds an end or nothing, and each call says which
// contract: c (own) An encoder makes blocks of its list, and a decoder lists of its block
/// Makes an encoder in a place that holds none.
#[unsafe(no_mangle)]
pub extern "C" fn bj_encoder_new(alloc: Global, maximum: u32, encoder: &mut BjEncoder) -> i32
    ensures { MakesHeld (IsNewEncoder maximum) result encoder.old.held encoder.new.held }
{
    if encoder.is_held() {
        return HELD;
    }
    match Encoder::new(alloc, maximum) {
        Ok(made) => make(alloc, made, encoder),
        Err(_) => MEMORY,
    }
}

/// Puts a new encoder into a place that holds none.
fn make(alloc: Global, encoder: Encoder, place: &mut BjEncoder) -> i32
    requires { place.old.held ≡ None }
    ensures { MakesHeld (λ held. held.encoder ≡ encoder) result place.old.held place.new.held }
{
    let held = HeldEncoder {
        encoder,
        fields: KeptFields::new(alloc),
        block: Vec::new(alloc),
    };
    match Box::new(alloc, held) {
        Ok(held) => {
            place.keep(held);
            OK
        }
        Err(_) => MEMORY,
    }
}

// contract: c (own) A place holds an end or nothing, and each call says which
/// Frees the encoder in a place, which then holds none.
#[unsafe(no_mangle)]
pub extern "C" fn bj_encoder_free(alloc: Global, encoder: &mut BjEncoder) -> i32
    ensures empty { encoder.new.held ≡ None }
    ensures answer { FreesPlace encoder.old.held result }
{
    match encoder.open(alloc) {
        Some(held) => {
            drop(held);
            OK
        }
        None => EMPTY,
    }
}

// contract: c (own) An encoder makes blocks of its list, and a decoder lists of its block
/// Sets the limit of the peer's header table, which the next block announces.
#[unsafe(no_mangle)]
pub extern "C" fn bj_encoder_set_limit(alloc: Global, encoder: &mut BjEncoder, limit: u32) -> i32
    ensures { OnPlace result (LimitsEncoder limit result) encoder.old.held encoder.new.held }
{
    let Some(mut held) = encoder.open(alloc) else {
        return EMPTY;
    };
    held.encoder.set_limit(limit);
    encoder.keep(held);
    OK
}

// contract: c (own) An encoder makes blocks of its list, and a decoder lists of its block
/// Encodes fields as a block, and lends it.
#[unsafe(no_mangle)]
pub extern "C" fn bj_encode(
    alloc: Global,
    encoder: &mut BjEncoder,
    fields: &[BjField<'_>],
    block: &mut BjSpan,
) -> i32
    ensures call { OnPlace result
        (EncodesFields (fields_given fields.now) result block.old block.new)
        encoder.old.held encoder.new.held }
    ensures unheld { encoder.old.held ≡ None → block.new ≡ block.old }
{
    let Some(mut held) = encoder.open(alloc) else {
        return EMPTY;
    };
    let answer = held.encode(alloc, fields, block);
    encoder.keep(held);
    answer
}

/// The least size of a list that is not encoded: 2<sup>35</sup>.
const TOO_LARGE: usize = 0x8_0000_0000;

impl HeldEncoder {
    /// Encodes fields that C gives, and lends the block.
    fn encode(&mut self, alloc: Global, fields: &[BjField<'_>], block: &mut BjSpan) -> i32
        ensures { EncodesFields (fields_given fields.now) result block.old block.new
            self.old self.new }
    {
        let mut copies = self.fields.take(alloc);
        let answer = self.encode_copied(alloc, fields, block, &mut copies);
        self.fields.keep(copies);
        answer
    }

    /// Encodes copies of fields, and lends the block.
    fn encode_copied(
        &mut self,
        alloc: Global,
        fields: &[BjField<'_>],
        block: &mut BjSpan,
        copies: &mut Vec<Field>,
    ) -> i32
        ensures { EncodesFields (fields_given fields.now) result block.old block.new
            self.old self.new }
    {
        match recopy(alloc, fields, copies) {
            Ok(()) => self.encode_list(copies, block),
            Err(_) => MEMORY,
        }
    }

    // rule: c (own) An encoder makes blocks of its list, and a decoder lists of its block
    /// Encodes a list, and lends the block.
    fn encode_list(&mut self, fields: &[Field], block: &mut BjSpan) -> i32
        ensures { EncodesFields fields.now result block.old block.new self.old self.new }
    {
        let size = list_size(fields);
        if size >= TOO_LARGE {
            return LIST_TOO_LARGE;
        }
        self.block.clear();
        match self.encoder.encode_sized(fields, size, &mut self.block) {
            Ok(()) => {
                block.say(&self.block);
                OK
            }
            Err(_) => MEMORY,
        }
    }
}
