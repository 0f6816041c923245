//! A decoder of field blocks (RFC 7541), in a place that C owns.

ghost use Rattle.std.specs.Prelude.{◌≡◌, Option, None, Some, IsSome, MatchOption};
ghost use Rattle.std.specs.Prelude.{[], drop, slice_get};
ghost use Rattle.std.specs.Option.{is_some};
ghost use Rattle.std.specs.Coded.{coded_option};
ghost use Rattle.belkjoef.specs.Calls.{OnPlace, FreesPlace};
ghost use Rattle.belkjoef.specs.Coders.{DecodesBlock, IsNewDecoder, LimitsDecoder, OfDecoded};
ghost use Rattle.belkjoef.specs.Coders.{count_decoded};
ghost use Rattle.belkjoef.specs.Lent.{LendsField, LendsFields};
ghost use Rattle.belkjoef.specs.Making.{MakesHeld};
ghost use Rattle.belkjoef.specs.Places.{place_owns};
ghost use Rattle.belkjoef.specs.contracts.decoder.HeldDecoder.{the_row};
ghost use Rattle.belkjoef.specs.declared.decoder.HeldDecoder.{HeldDecoder};

use crate::fields::{BjLent, lend, lend_at};
use crate::loose::Loose;
use crate::numbers::{EMPTY, HELD, MEMORY, OK, of_decoded};
use crate::place::HOLDS_ONE;
use hpack::{Decoder, FieldList};
use std::alloc::Global;
use std::marker::Model;

/// The contents of a place that holds a decoder.
#[derive(Drop)]
pub struct HeldDecoder {
    /// The decoder.
    pub(crate) decoder: Decoder,
    /// The fields that were decoded last.
    pub(crate) list: FieldList,
}

/// `bj_decoder`: a place that C owns and that holds a decoder or nothing, as [`crate::BjEnd`]
/// holds an end.
#[repr(C)]
pub struct BjDecoder {
    at: *mut u8,
    state: u64,
    ghost held: { Option HeldDecoder } by { coded_option the_row.coded },
}

impl Model for BjDecoder {
    ghost also_owns = { λ place. place_owns the_row place.at place.state place.held };
}

impl BjDecoder {
    /// Returns whether it holds a decoder.
    pub(crate) fn is_held(&mut self) -> bool
        ensures value { result ≡ is_some self.old.held }
        ensures same { self.new ≡ self.old }
    {
        self.state == HOLDS_ONE
    }

    /// Puts a decoder here, where there is none.
    pub(crate) fn put(&mut self, loose: Loose<HeldDecoder, Global>)
        requires { self.old.held ≡ None }
        ensures { self.new.held ≡ Some loose.value }
    {
        let Loose { at, alloc: _ } = loose;
        self.at = at as *mut u8;
        self.state = HOLDS_ONE;
    }

    /// Takes the decoder that is here.
    pub(crate) fn take(&mut self, alloc: Global) -> Loose<HeldDecoder, Global>
        requires { IsSome self.old.held }
        ensures empty { self.new.held ≡ None }
        ensures value { Some result.value ≡ self.old.held }
    {
        self.state = 0;
        let at = self.at as *mut HeldDecoder;
        Loose { at, alloc }
    }

    /// Puts a decoder back.
    pub(crate) fn keep(&mut self, held: Box<HeldDecoder>)
        requires { self.old.held ≡ None }
        ensures { self.new.held ≡ Some held.value }
    {
        self.put(Loose::of(held));
    }

    /// Takes out the decoder that is here, if any. The place holds nothing until it is put
    /// back.
    pub(crate) fn open(&mut self, alloc: Global) -> Option<Box<HeldDecoder>>
        ensures empty { self.new.held ≡ None }
        ensures value { MatchOption result (self.old.held ≡ None)
            (λ held. self.old.held ≡ Some held.value) }
    {
        if !self.is_held() {
            return None;
        }
        Some(self.take(alloc).into_box())
    }
}

// contract: c (own) A place holds an end or nothing, and each call says which
// contract: c (own) An encoder makes blocks of its list, and a decoder lists of its block
/// Makes a decoder in a place that holds none.
#[unsafe(no_mangle)]
pub extern "C" fn bj_decoder_new(alloc: Global, maximum: u32, decoder: &mut BjDecoder) -> i32
    ensures { MakesHeld (IsNewDecoder maximum) result decoder.old.held decoder.new.held }
{
    if decoder.is_held() {
        return HELD;
    }
    match Decoder::new(alloc, maximum) {
        Ok(made) => make(alloc, made, decoder),
        Err(_) => MEMORY,
    }
}

/// Puts a new decoder into a place that holds none.
fn make(alloc: Global, decoder: Decoder, place: &mut BjDecoder) -> i32
    requires { place.old.held ≡ None }
    ensures { MakesHeld (λ held. (held.decoder ≡ decoder) × (held.list ≡ []))
        result place.old.held place.new.held }
{
    let held = HeldDecoder {
        decoder,
        list: FieldList::new(alloc),
    };
    match Box::new(alloc, held) {
        Ok(held) => {
            place.keep(held);
            OK
        }
        Err(_) => MEMORY,
    }
}

// contract: c (own) A place holds an end or nothing, and each call says which
/// Frees the decoder in a place, which then holds none.
#[unsafe(no_mangle)]
pub extern "C" fn bj_decoder_free(alloc: Global, decoder: &mut BjDecoder) -> i32
    ensures empty { decoder.new.held ≡ None }
    ensures answer { FreesPlace decoder.old.held result }
{
    match decoder.open(alloc) {
        Some(held) => {
            drop(held);
            OK
        }
        None => EMPTY,
    }
}

// contract: c (own) An encoder makes blocks of its list, and a decoder lists of its block
/// Sets the limit of the header table, which size updates of later blocks must keep.
#[unsafe(no_mangle)]
pub extern "C" fn bj_decoder_set_limit(alloc: Global, decoder: &mut BjDecoder, limit: u32) -> i32
    ensures { OnPlace result (LimitsDecoder limit result) decoder.old.held decoder.new.held }
{
    let Some(mut held) = decoder.open(alloc) else {
        return EMPTY;
    };
    held.decoder.set_limit(limit);
    decoder.keep(held);
    OK
}

// contract: c (own) An encoder makes blocks of its list, and a decoder lists of its block
/// Decodes a block into the list of the decoder, and stores how many fields it has.
#[unsafe(no_mangle)]
pub extern "C" fn bj_decode(
    alloc: Global,
    decoder: &mut BjDecoder,
    block: &[u8],
    list_limit: u32,
    count: &mut usize,
) -> i32
    ensures call { OnPlace result (DecodesBlock block.now list_limit result)
        decoder.old.held decoder.new.held }
    ensures count { count.new ≡ count_decoded decoder.new.held }
{
    *count = 0;
    let Some(mut held) = decoder.open(alloc) else {
        return EMPTY;
    };
    let answer = held.decode(block, list_limit);
    *count = held.list.len();
    decoder.keep(held);
    answer
}

impl HeldDecoder {
    // rule: c (own) An encoder makes blocks of its list, and a decoder lists of its block
    /// Decodes a block into the list.
    fn decode(&mut self, block: &[u8], list_limit: u32) -> i32
        ensures { DecodesBlock block.now list_limit result self.old self.new }
    {
        of_decoded(self.decoder.decode_into(block, list_limit, &mut self.list))
    }
}

// contract: c (own) Fields of the list that was handed out last are lent
/// Lends the field at a place of the list that was decoded last.
#[unsafe(no_mangle)]
pub extern "C" fn bj_decoded_at(
    alloc: Global,
    decoder: &mut BjDecoder,
    place: usize,
    field: &mut BjLent,
) -> i32
    ensures call { OnPlace result
        (OfDecoded (λ list. LendsField (slice_get list place) result field.old field.new))
        decoder.old.held decoder.new.held }
    ensures unheld { decoder.old.held ≡ None → field.new ≡ field.old }
{
    let Some(held) = decoder.open(alloc) else {
        return EMPTY;
    };
    let answer = lend_at(&held.list, place, field);
    decoder.keep(held);
    answer
}

// contract: c (own) Fields of the list that was handed out last are lent
/// Lends fields of the list that was decoded last, from a place on, as many as there is room for.
#[unsafe(no_mangle)]
pub extern "C" fn bj_decoded(
    alloc: Global,
    decoder: &mut BjDecoder,
    from: usize,
    fields: &mut [BjLent],
    count: &mut usize,
) -> i32
    ensures call { OnPlace result
        (OfDecoded (λ list. LendsFields (drop from list) result fields.old fields.new count.new))
        decoder.old.held decoder.new.held }
    ensures unheld { decoder.old.held ≡ None → (count.new ≡ 0) × (fields.new ≡ fields.old) }
{
    *count = 0;
    let Some(held) = decoder.open(alloc) else {
        return EMPTY;
    };
    *count = lend(&held.list, from, fields);
    decoder.keep(held);
    OK
}
