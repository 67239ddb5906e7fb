//! Fewer boxes than the sinks take.

use crate::running::{Ended, Kind, Run, ends_so, put_tally};
use std::alloc::Global;
use unit_outlets::Outlet;

/// A run with so many boxes, fewer than its sinks take.
struct Few {
    boxes: usize,
    run: Run,
}

static FEW: [Few; 3] = [
    Few {
        boxes: 0,
        run: Run {
            kind: Kind::Lines,
            text: "scenario 1\nsink 0 1 1\n",
            ended: Ended::Refused,
            transcript: "line 2: NoOutlet\n",
        },
    },
    Few {
        boxes: 1,
        run: Run {
            kind: Kind::Lines,
            text: "scenario 1\ngroup unframed 20000 40000 8 10000 4 4 1 1 1 1 0 0 0 1\nsink 0 1 1\nstart 0\ntuned 0 1\ndrop 0\nsink 0 1 1\nend\n",
            ended: Ended::Refused,
            transcript: "sum 0 0 0\nline 7: NoOutlet\n",
        },
    },
    Few {
        boxes: 1,
        run: Run {
            kind: Kind::Generated,
            text: "",
            ended: Ended::Refused,
            transcript: "events 5\nunits 0 lost 0\n",
        },
    },
];

/// Whether a run with too few boxes ends so.
fn lacks_a_box(alloc: Global, few: &Few) -> bool {
    let mut outlets: Vec<Box<dyn Outlet>> = Vec::new(alloc);
    'boxes: for _ in 0..few.boxes {
        if !put_tally(alloc, &mut outlets) {
            return false;
        }
    }
    ends_so(alloc, &few.run, &mut outlets)
}

#[test]
fn a_sink_that_finds_no_box_is_refused(rt: HostRuntime) {
    for few in &FEW {
        assert!(rt; lacks_a_box(rt.alloc(), few));
    }
}
