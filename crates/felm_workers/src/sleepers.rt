/// Whom to wake.
#[derive(Clone, Copy)]
pub struct Wake {
    pub worker: bool,
    pub feeder: bool,
}

/// A sleeping feeder is woken at latest after so many looks of workers, while a worker sleeps.
const LONGEST: u32 = 64;

/// Who sleeps. A sleeper that was woken counts as asleep until it runs again, so that nobody calls it
/// twice. Nothing rests on these numbers but who is woken when.
#[derive(Drop)]
pub struct Sleepers {
    workers: u32,
    // Of these, those that were woken.
    woken: u32,
    // The thread that feeds sleeps, and was not woken.
    feeder: bool,
    // How many looks of workers there were since the feeder was last woken, and at how many it is
    // woken the next time.
    looks: u32,
    patience: u32,
}

impl Sleepers {
    /// Nobody sleeps.
    pub fn make() -> Sleepers {
        Sleepers {
            workers: 0,
            woken: 0,
            feeder: false,
            looks: 0,
            patience: 1,
        }
    }

    /// A worker goes to sleep.
    pub fn add_worker(&mut self) {
        self.workers = self.workers.saturating_add(1);
    }

    /// A worker runs again.
    pub fn remove_worker(&mut self) {
        self.workers = self.workers.saturating_sub(1);
        self.woken = self.woken.saturating_sub(1);
    }

    /// Whether a worker sleeps that was not woken yet. It is then woken.
    pub fn wake_worker(&mut self) -> bool {
        let wakes = self.woken < self.workers;
        if wakes {
            self.woken = self.woken.saturating_add(1);
        }
        wakes
    }

    /// The feeder goes to sleep.
    pub fn add_feeder(&mut self) {
        self.feeder = true;
    }

    /// The feeder runs again.
    pub fn remove_feeder(&mut self) {
        self.feeder = false;
    }

    /// The feeder had something to do.
    pub fn feeder_was_wanted(&mut self) {
        self.looks = 0;
        self.patience = 1;
    }

    /// Whether the feeder sleeps. It is then woken.
    pub fn wake_feeder(&mut self) -> bool {
        let wakes = self.feeder;
        self.feeder = false;
        wakes
    }

    /// The same at a worker's look, and only now and then. What a worker deposits may make room for
    /// an event, which only a look of the feeder tells; it matters where another worker sleeps. Each
    /// look in vain doubles the time to the next one.
    pub fn wake_feeder_in_time(&mut self) -> bool {
        if self.workers == 0 || !self.feeder {
            return false;
        }
        self.looks = self.looks.saturating_add(1);
        if self.looks < self.patience {
            return false;
        }
        self.looks = 0;
        self.patience = self.patience.saturating_mul(2).min(LONGEST);
        self.wake_feeder()
    }
}
