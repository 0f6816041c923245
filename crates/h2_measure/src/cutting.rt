//! Cutting, grouping and decoding, as an end of a connection does.

use crate::counts::Counts;
use h2_block::{BlockFault, Gather, Gathered};
use h2_wire::{Cutter, WireFault};
use hpack::{Decoder, Fault, FieldList};
use std::alloc::Global;

/// Why no more of the octets is read.
#[derive(Drop)]
enum Stop {
    /// The cutter has a fault.
    Wire,
    /// A frame doesn't group.
    Block,
    /// A block doesn't decode.
    Decoder,
}

impl From<WireFault> for Stop {
    fn from(_fault: WireFault) -> Stop {
        Stop::Wire
    }
}

impl From<BlockFault> for Stop {
    fn from(_fault: BlockFault) -> Stop {
        Stop::Block
    }
}

impl From<Fault> for Stop {
    fn from(_fault: Fault) -> Stop {
        Stop::Decoder
    }
}

/// What reads one stream of octets.
#[derive(Drop)]
struct Reader {
    cutter: Cutter,
    gather: Gather,
    decoder: Decoder,
    list: FieldList,
}

/// Cuts, groups and decodes `rounds` times.
pub(crate) fn cut_rounds(
    alloc: Global,
    octets: &[u8],
    piece: usize,
    rounds: u32,
    counts: &mut Counts,
) -> i32 {
    for _ in 0..rounds {
        if cut_round(alloc, octets, piece, counts).is_err() {
            return 1;
        }
    }
    0
}

fn cut_round(alloc: Global, octets: &[u8], piece: usize, counts: &mut Counts) -> Result<(), Stop> {
    let decoder = Decoder::new(alloc, 4_096)?;
    let mut reader = Reader {
        cutter: Cutter::new(alloc, 16_384, true),
        gather: Gather::new(alloc),
        decoder,
        list: FieldList::new(alloc),
    };
    reader.take_all(octets, piece, counts)
}

impl Reader {
    fn take_all(&mut self, octets: &[u8], piece: usize, counts: &mut Counts) -> Result<(), Stop> {
        let mut uncut = octets;
        for _ in 0..octets.len() {
            if uncut.is_empty() {
                break;
            }
            let (one, following) = uncut.split_at_checked(piece).unwrap_or((uncut, &[]));
            uncut = following;
            self.take_piece(one, counts)?;
        }
        Ok(())
    }

    fn take_piece(&mut self, piece: &[u8], counts: &mut Counts) -> Result<(), Stop> {
        let mut used = 0;
        for _ in 0..piece.len() {
            if used >= piece.len() {
                break;
            }
            let cut = self.cutter.cut(&piece[used..])?;
            used += cut.used;
            let Some(frame) = cut.frame else {
                continue;
            };
            counts.add_one();
            if let Gathered::Block { octets, .. } = self.gather.take(frame)? {
                counts.add_octets(octets.len());
                let _decoded = self.decoder.decode_into(&octets, 65_536, &mut self.list)?;
            }
        }
        Ok(())
    }
}
