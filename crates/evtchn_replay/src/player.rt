// A log that is played over records and memory of the program's own.
use replay::player::{
    Position, Report, evtchn_replay_bytes_feed, evtchn_replay_bytes_report,
    evtchn_replay_bytes_start,
};

// The encoded records, a ledger for every port, the lent pages and the control block; the line that is being read and the one that
// is due.
#[derive(Drop)]
pub(crate) struct Player<'a> {
    pub position: Position,
    domain: [u8; 100],
    ledger: &'a mut [u8],
    guest: [u8; 104],
    words: &'a mut [u32],
    block: [u32; 18],
    pub line: [u8; 64],
    pub due: [u8; 64],
}

impl<'a> Player<'a> {
    // The start, over what is lent.
    pub(crate) fn fresh(ledger: &'a mut [u8], words: &'a mut [u32]) -> Player<'a> {
        let mut domain = [0; 100];
        let mut guest = [0; 104];
        let mut block = [0; 18];
        let mut due = [0; 64];
        let position = evtchn_replay_bytes_start(
            &mut domain,
            ledger,
            &mut guest,
            words,
            &mut block,
            &mut due,
        );
        Player {
            position,
            domain,
            ledger,
            guest,
            words,
            block,
            line: [0; 64],
            due,
        }
    }

    // Plays a piece of the log.
    pub(crate) fn feed(&mut self, piece: &[u8]) {
        self.position = evtchn_replay_bytes_feed(
            self.position,
            &mut self.domain,
            self.ledger,
            &mut self.guest,
            self.words,
            &mut self.block,
            &mut self.line,
            &mut self.due,
            piece,
        );
    }

    // The report, if the log ends here.
    pub(crate) fn report(&self) -> Report {
        evtchn_replay_bytes_report(self.position)
    }
}
