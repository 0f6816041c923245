//! A file that is being sent, part by part.

ghost use Rattle.std.specs.Prelude.{◌≡◌, ◌≢◌, ◌==◌, IfSome, MatchOption, length};
ghost use Rattle.h2_folder.specs.Parting.{BeginsAt, GivesPart};

use std::io::{Read, Seek, SeekFrom};

/// The rest of a range of a file that is being sent.
#[derive(Drop)]
pub struct Sending<F> {
    file: F,
    /// The number of the first octet, counted from 0.
    first: u64,
    left: u64,
}

impl<F: Read + Seek + Drop> Sending<F> {
    // contract: files (own) A file's octets are sent from the one that the answer's head states
    // rule: files (own) A file's octets are sent from the one that the answer's head states
    /// Creates a sender of `count` octets of a file that was just opened, from octet number
    /// `first` on, counted from 0; `None` if the file cannot be read from there.
    pub fn new(file: F, first: u64, count: u64) -> Option<Sending<F>>
        ensures { MatchOption result (first ≢ 0) (λ sending. (sending.first ≡ first)
            × (sending.left ≡ count)
            × BeginsAt first (F.stream_position file) (F.stream_position sending.file)) }
    {
        let left = count;
        if first == 0 {
            return Some(Sending { file, first, left });
        }
        let mut file = file;
        match file.seek(SeekFrom::Start(first)) {
            Ok(_) => Some(Sending { file, first, left }),
            Err(_) => None,
        }
    }
}

impl<F: Read> Sending<F> {
    /// Whether nothing is left to send.
    pub fn is_done(&self) -> bool
        ensures { result ≡ (self.now.left == 0) }
    {
        self.left == 0
    }

    // contract: hosts (own) A file is sent in parts, as many octets as its head says
    // rule: hosts (own) A file is sent in parts, as many octets as its head says
    /// Writes the next octets to the start of `room`, and returns how many: 0 only if `room` is
    /// empty or nothing is left. Returns `None` if the file cannot be read, or has become shorter.
    pub fn next_part(&mut self, room: &mut [u8]) -> Option<usize>
        ensures part { IfSome result (GivesPart (F.remaining self.old.file)
            (F.remaining self.new.file) self.old.left self.new.left room.new) }
        ensures room { length room.new ≡ length room.old }
    {
        let most = usize::try_from(self.left)
            .unwrap_or(usize::MAX)
            .min(room.len());
        if most == 0 {
            return Some(0);
        }
        match self.file.read(&mut room[..most]) {
            Ok(0) | Err(_) => None,
            Ok(count) => {
                self.left = self.left.saturating_sub(count as u64);
                Some(count)
            }
        }
    }
}
