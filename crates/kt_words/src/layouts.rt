// Where the words of a run stand in its table.
ghost use Rattle.std.specs.Prelude.{◌≡◌, ◌+◌, ◌*◌, ◌<◌};

/// Records in the region of one worker. Record `j` of worker `k` has the number `RECORDS * k + j`.
pub const RECORDS: u32 = 16_384;

/// Words of one record.
pub const FIELDS: u32 = 21;

/// Words that stand before those of the workers.
const SHARED_WORDS: usize = 4;

/// Words of one worker, of which the last three are unused.
const WORKER_WORDS: usize = 8;

/// The numbers that fix where each word of a run stands. Each method gives the place of the word that it is named after.
#[derive(Clone, Copy, Debug, PartialEq, Eq)]
pub struct Layout {
    pub workers: u32,
    pub objects: u32,
    /// Elements of all objects together.
    pub elements: u32,
}

#[tactic(auto, unfolding(crate::specs::Places::place, crate::specs::Places::total_of))]
impl Layout {
    ghost use Rattle.kt_words.specs.Places.{place, total_of, shared_word, worker_word, record_word, element_word, version_word};
    ghost use Rattle.kt_words.specs.Places.{tasks_drawn, positions_drawn, stop, request, post, answer, interval, home};

    /// How many words the table has.
    pub fn total(&self) -> usize
        ensures { result ≡ total_of self.now }
    {
        self.first_version() + self.objects as usize
    }

    /// How many tasks were drawn.
    pub fn tasks_drawn(&self) -> usize
        ensures value { result ≡ place self.now (shared_word tasks_drawn) }
        ensures inside { result < total_of self.now }
    {
        1
    }

    /// How many positions of loops were drawn.
    pub fn positions_drawn(&self) -> usize
        ensures value { result ≡ place self.now (shared_word positions_drawn) }
        ensures inside { result < total_of self.now }
    {
        2
    }

    /// The stop word: 1 once a count went over its limit, and else 0.
    pub fn stop(&self) -> usize
        ensures value { result ≡ place self.now (shared_word stop) }
        ensures inside { result < total_of self.now }
    {
        3
    }

    /// The request word: 0, or 1 plus the worker that leads.
    pub fn request(&self, worker: u32) -> usize
        requires { worker < self.now.workers }
        ensures value { result ≡ place self.now (worker_word worker request) }
        ensures inside { result < total_of self.now }
    {
        self.own(worker)
    }

    /// The post word.
    pub fn post(&self, worker: u32) -> usize
        requires { worker < self.now.workers }
        ensures value { result ≡ place self.now (worker_word worker post) }
        ensures inside { result < total_of self.now }
    {
        self.own(worker) + 1
    }

    /// The answer word: the piece that was given, as a pair.
    pub fn answer(&self, worker: u32) -> usize
        requires { worker < self.now.workers }
        ensures value { result ≡ place self.now (worker_word worker answer) }
        ensures inside { result < total_of self.now }
    {
        self.own(worker) + 2
    }

    /// The interval word: the positions that the worker has, as a pair.
    pub fn interval(&self, worker: u32) -> usize
        requires { worker < self.now.workers }
        ensures value { result ≡ place self.now (worker_word worker interval) }
        ensures inside { result < total_of self.now }
    {
        self.own(worker) + 3
    }

    /// The home word: 0, or 1 plus the number of the record of the interval's loop.
    pub fn home(&self, worker: u32) -> usize
        requires { worker < self.now.workers }
        ensures value { result ≡ place self.now (worker_word worker home) }
        ensures inside { result < total_of self.now }
    {
        self.own(worker) + 4
    }

    /// A field of the record with the number `at`; [`crate::fields`] names the fields.
    pub fn field(&self, at: u32, field: u32) -> usize
        requires in_a_region { at < RECORDS * self.now.workers }
        requires in_the_record { field < FIELDS }
        ensures value { result ≡ place self.now (record_word at field) }
        ensures inside { result < total_of self.now }
    {
        self.first_record() + FIELDS as usize * at as usize + field as usize
    }

    /// An element, by its number among those of all objects.
    pub fn element(&self, number: u32) -> usize
        requires { number < self.now.elements }
        ensures value { result ≡ place self.now (element_word number) }
        ensures inside { result < total_of self.now }
    {
        self.first_element() + number as usize
    }

    /// The version of an object.
    pub fn version(&self, object: u32) -> usize
        requires { object < self.now.objects }
        ensures value { result ≡ place self.now (version_word object) }
        ensures inside { result < total_of self.now }
    {
        self.first_version() + object as usize
    }

    /// The first word of a worker.
    fn own(&self, worker: u32) -> usize
        ensures { result ≡ SHARED_WORDS + WORKER_WORDS * worker }
    {
        SHARED_WORDS + WORKER_WORDS * worker as usize
    }

    fn first_record(&self) -> usize
        ensures { result ≡ SHARED_WORDS + WORKER_WORDS * self.now.workers }
    {
        self.own(self.workers)
    }

    fn first_element(&self) -> usize
        ensures { result
            ≡ SHARED_WORDS + WORKER_WORDS * self.now.workers
            + FIELDS * (RECORDS * self.now.workers) }
    {
        self.first_record() + FIELDS as usize * (RECORDS as usize * self.workers as usize)
    }

    fn first_version(&self) -> usize
        ensures { result
            ≡ SHARED_WORDS + WORKER_WORDS * self.now.workers + FIELDS * (RECORDS * self.now.workers)
            + self.now.elements }
    {
        self.first_element() + self.elements as usize
    }
}
