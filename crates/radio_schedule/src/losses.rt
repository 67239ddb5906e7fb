//! Which PDUs of an event are lost, counted on from stream to stream.
ghost use Rattle.std.specs.Prelude.{◌≡◌, ◌<◌, ◌≤◌, ◌+◌, ◌*◌, ◌^◌, ℕ};
ghost use Rattle.radio_schedule.specs.Losing.{CountsOn, LosesFrom};

/// How many streams an event of a group has, and how many subevents each of them has: at most 31.
#[derive(Clone, Copy)]
pub struct Grid {
    pub streams: u8,
    pub subevents: u8,
    pub ghost few_streams: { streams < 2 ^ 5 },
    pub ghost few_subevents: { subevents < 2 ^ 5 },
}

/// The losses from a PDU of an event on. Of each `lose` PDUs the last one is lost, and none where that is 0.
#[derive(Clone, Copy)]
pub struct Losses {
    pub lose: u8,
    /// How many PDUs come before the next one that is lost.
    pub before: u16,
}

impl Losses {
    /// The losses from the first PDU of an event on.
    pub fn first(grid: Grid, event: u64, lose: u8) -> Losses
        requires { event < 2 ^ 39 }
        ensures lose { result.lose ≡ lose }
        ensures counted { CountsOn lose (event * grid.streams * grid.subevents) result.before }
    {
        if lose == 0 {
            return Losses { lose, before: 0 };
        }
        let sent = event * u64::from(grid.streams) * u64::from(grid.subevents);
        let since = (sent % u64::from(lose)) as u8;
        Losses {
            lose,
            before: u16::from(lose - 1 - since),
        }
    }

    /// Tells which PDUs of the next stream are lost, by subevent from 0, where it has so many.
    pub fn next(&mut self, subevents: u8, lost: &mut [bool; 31])
        requires { subevents ≤ 31 }
        ensures lose { self.new.lose ≡ self.old.lose }
        ensures counted { (count : ℕ) → CountsOn self.old.lose count self.old.before
            → CountsOn self.old.lose (count + subevents) self.new.before }
        ensures lost { (count : ℕ) → CountsOn self.old.lose count self.old.before
            → LosesFrom self.old.lose count subevents lost.new }
    {
        *lost = [false; 31];
        if self.lose == 0 {
            return;
        }
        let count = u16::from(subevents);
        let mut place = self.before;
        'places: while place < count {
            lost[usize::from(place)] = true;
            place += u16::from(self.lose);
        }
        self.before = place - count;
    }
}
