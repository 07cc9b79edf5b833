// Jobs that run beside the caller, and who starts them.
ghost use Rattle.std.specs.Prelude.{true, false, ◌≡◌, ℕ, ◌+◌, IfNone, IfSome, vec_len};
ghost use Rattle.std.specs.List.{All};
ghost use Rattle.ec_link.specs.declared.spawn.Spawned.TheVariants as spawned;
ghost use Rattle.ec_link.specs.Happenings.{faults_in};
ghost use Rattle.ec_link.specs.Spawns.{faults_of};
ghost use Rattle.ec_link.specs.JobCounts.{job_taken, refused, IsPromised};

use crate::around::Around;
use crate::happenings::Happenings;
use std::snapshot::Snapshot;
use std::thread;
use std::thread::{Promise, PromisedHandle, Scope, Threads};

/// What is run in a thread of its own.
pub trait Job {
    type Out: Send + Drop;

    // It can be done.
    ghost ready: { Self → Type 0 };

    // What is known of its result.
    ghost gives: { Self → Self.Out → Type 0 };

    /// Does the job.
    fn run<R: Around>(self, rt: &R) -> Self::Out
        requires { ready self }
        ensures gives { gives self result };
}

/// Where jobs come from, and where their results go.
pub trait Jobs {
    type Job: Job + Send + Drop;

    // How many jobs it gave.
    ghost begun: { Self → ℕ };

    // How many results it got.
    ghost ended: { Self → ℕ };

    // No further job comes.
    ghost over: { Self → Type 0 };

    // What holds of it from call to call.
    ghost fits: { Self → Type 0 };

    // What becomes of it.
    ghost later: { Self → Self → Type 0 };

    // The result is one of a job that it gave.
    ghost owns: { Self → Self.Job.Out → Type 0 };

    ghost same: { (jobs : Self) → later jobs jobs };

    ghost onward: { (jobs : Self) (mid : Self) (last : Self) → later jobs mid → later mid last → later jobs last };

    ghost keeps: { (jobs : Self) (last : Self) (out : Self.Job.Out) → later jobs last → owns jobs out → owns last out };

    /// The next job, or `None` where no further one comes.
    fn next<R: Around>(&mut self, rt: &R) -> Option<Self::Job>
        requires { fits self.old }
        ensures begun { begun self.new ≡ begun self.old + job_taken result }
        ensures ended { ended self.new ≡ ended self.old }
        ensures none { IfNone result (over self.new) }
        ensures later { later self.old self.new }
        ensures fits { fits self.new }
        ensures ready { IfSome result (λ job. Self.Job.ready job) }
        ensures owns { IfSome result (λ job. (out : Self.Job.Out) → Self.Job.gives job out → owns self.new out) };

    /// The result of a job that it gave.
    fn done<R: Around>(&mut self, rt: &R, out: <Self::Job as Job>::Out)
        requires fits { fits self.old }
        requires owns { owns self.old out }
        ensures begun { begun self.new ≡ begun self.old }
        ensures ended { ended self.new ≡ ended self.old + 1 }
        ensures over { over self.old → over self.new }
        ensures fits { fits self.new }
        ensures later { later self.old self.new };
}

#[derive(Clone, Copy, Debug, Drop, PartialEq, Eq)]
pub enum Spawned {
    /// No further job came, and all have ended.
    All,
    /// A job couldn't be started. It was dropped, and all others have ended.
    Failed,
    /// There was no memory for a further job, and all have ended.
    NoMemory,
}

// What the result of a job keeps.
#[derive(Drop)]
struct Kept<J>(Snapshot<J>);

impl<J: Job> Promise<J::Out> for Kept<J> {
    ghost kept_by = { λ kept out. J.gives kept.0.value out };
}

// A job that was started.
#[derive(Drop)]
struct Started<J: Job> {
    handle: PromisedHandle<J::Out, Kept<J>>,
}

// Starts the job, or drops it.
fn start<'s, E, R: Around, J: Job + Send + Drop + 's>(
    rt: &'s R,
    scope: &Scope<'s, E>,
    job: J,
) -> Option<Started<J>>
where
    J::Out: 's,
    requires { J.ready job }
    ensures { IfSome result (λ started. started.handle.promise.0.value ≡ job) }
{
    let kept = Kept(Snapshot::of(&job));
    let handle = scope.spawn_with(kept, move || job.run(rt)).ok()?;
    Some(Started { handle })
}

// Starts job after job.
fn start_all<'s, E, R: Around, S: Jobs>(
    rt: &'s R,
    scope: &Scope<'s, E>,
    jobs: &mut S,
    handles: &mut Vec<Started<S::Job>>,
) -> Spawned
where
    S::Job: 's,
    <S::Job as Job>::Out: 's,
    requires fits { S.fits jobs.old }
    requires owns { All (IsPromised (λ started. started.handle.promise.0.value) S.Job.gives S.owns jobs.old) handles.old.items }
    ensures fits { S.fits jobs.new }
    ensures each { S.begun jobs.new + vec_len handles.old ≡ S.begun jobs.old + vec_len handles.new + refused result }
    ensures ended { S.ended jobs.new ≡ S.ended jobs.old }
    ensures over { result ≡ spawned.All → S.over jobs.new }
    ensures later { S.later jobs.old jobs.new }
    ensures owns { All (IsPromised (λ started. started.handle.promise.0.value) S.Job.gives S.owns jobs.new) handles.new.items }
{
    for _ in rt.forever() {
        if handles.reserve(1).is_err() {
            return Spawned::NoMemory;
        }
        let Some(job) = jobs.next(rt) else {
            return Spawned::All;
        };
        match start(rt, scope, job) {
            Some(started) => handles.push_reserved(started),
            None => return Spawned::Failed,
        }
    }
    unreachable!()
}

// Waits for each job and hands its result over.
fn finish_all<R: Around, S: Jobs>(rt: &R, jobs: &mut S, handles: Vec<Started<S::Job>>)
    requires fits { S.fits jobs.old }
    requires owns { All (IsPromised (λ started. started.handle.promise.0.value) S.Job.gives S.owns jobs.old) handles.items }
    ensures fits { S.fits jobs.new }
    ensures begun { S.begun jobs.new ≡ S.begun jobs.old }
    ensures ended { S.ended jobs.new ≡ S.ended jobs.old + vec_len handles }
    ensures over { S.over jobs.old → S.over jobs.new }
    ensures later { S.later jobs.old jobs.new }
{
    for started in handles {
        let out = join(rt, started);
        jobs.done(rt, out);
    }
}

// Waits for a job.
fn join<R: Around, J: Job>(rt: &R, started: Started<J>) -> J::Out
    ensures { J.gives started.handle.promise.0.value result }
{
    let Started { handle } = started;
    handle.join(rt)
}

fn run_in<'s, E, R: Around, S: Jobs>(rt: &'s R, scope: &Scope<'s, E>, jobs: &mut S) -> Spawned
where
    S::Job: 's,
    <S::Job as Job>::Out: 's,
    requires { S.fits jobs.old }
    ensures each { S.begun jobs.new + S.ended jobs.old ≡ S.begun jobs.old + S.ended jobs.new + refused result }
    ensures over { result ≡ spawned.All → S.over jobs.new }
    ensures later { S.later jobs.old jobs.new }
    ensures fits { S.fits jobs.new }
{
    let mut handles = Vec::new(rt.alloc());
    let spawned = start_all(rt, scope, jobs, &mut handles);
    finish_all(rt, jobs, handles);
    spawned
}

// Jobs may borrow what outlives the scope.
fn run_scoped<'a, R: Around, S: Jobs>(rt: &R, jobs: &'a mut S) -> (&'a mut S, Spawned)
    requires { S.fits jobs.now }
    ensures same { result.0.ghost_name ≡ jobs.entry.ghost_name }
    ensures each { S.begun result.0.now + S.ended jobs.entry.now ≡ S.begun jobs.entry.now + S.ended result.0.now + refused result.1 }
    ensures over { result.1 ≡ spawned.All → S.over result.0.now }
    ensures later { S.later jobs.entry.now result.0.now }
    ensures fits { S.fits result.0.now }
{
    thread::scope(
        thread::scope_env(),
        rt,
        move |scope| -> (&mut S, Spawned)
            requires { S.fits jobs.now }
            ensures { (result.0.ghost_name ≡ jobs.entry.ghost_name) × (S.begun result.0.now + S.ended jobs.entry.now ≡ S.begun jobs.entry.now + S.ended result.0.now + refused result.1) × (result.1 ≡ spawned.All → S.over result.0.now) × S.later jobs.entry.now result.0.now × S.fits result.0.now }
        {
            let spawned = run_in(rt, scope, jobs);
            (jobs, spawned)
        },
    )
}

/// Starts each job in a thread of its own.
#[derive(Drop)]
pub struct ThreadSpawner {
    happened: Happenings,
}

impl ThreadSpawner {
    pub fn new() -> ThreadSpawner
        ensures { faults_in result.happened ≡ 0 }
    {
        ThreadSpawner {
            happened: Happenings::new(),
        }
    }

    /// As `Spawner::run_all`.
    pub fn run_all<R: Around, S: Jobs>(&mut self, rt: &R, jobs: &mut S) -> Spawned
        requires { S.fits jobs.old }
        ensures faults { faults_in self.new.happened ≡ faults_in self.old.happened + refused result }
        ensures each { S.begun jobs.new + S.ended jobs.old ≡ S.begun jobs.old + S.ended jobs.new + refused result }
        ensures over { result ≡ spawned.All → S.over jobs.new }
        ensures later { S.later jobs.old jobs.new }
        ensures fits { S.fits jobs.new }
    {
        let (_, spawned) = run_scoped(rt, jobs);
        if spawned == Spawned::Failed {
            self.happened.fault();
        }
        spawned
    }
}

/// Starts nothing: it drops the first job.
#[derive(Drop)]
pub struct FailSpawner {
    happened: Happenings,
}

impl FailSpawner {
    pub fn new() -> FailSpawner
        ensures { faults_in result.happened ≡ 0 }
    {
        FailSpawner {
            happened: Happenings::new(),
        }
    }

    /// As `Spawner::run_all`.
    pub fn run_all<R: Around, S: Jobs>(&mut self, rt: &R, jobs: &mut S) -> Spawned
        requires { S.fits jobs.old }
        ensures faults { faults_in self.new.happened ≡ faults_in self.old.happened + refused result }
        ensures each { S.begun jobs.new + S.ended jobs.old ≡ S.begun jobs.old + S.ended jobs.new + refused result }
        ensures over { result ≡ spawned.All → S.over jobs.new }
        ensures later { S.later jobs.old jobs.new }
        ensures fits { S.fits jobs.new }
    {
        if jobs.next(rt).is_none() {
            return Spawned::All;
        }
        self.happened.fault();
        Spawned::Failed
    }
}

/// Who starts jobs.
#[derive(Drop)]
pub enum Spawner {
    Threads(ThreadSpawner),
    Fails(FailSpawner),
}

impl Spawner {
    /// Starts this in a thread of the scope. Where it can't be started it's dropped, and counted as a fault.
    pub fn start<
        's,
        E,
        P: Promise<T> + Drop,
        F: FnOnce() -> T + Send + Drop + 's,
        T: Send + Drop + 's,
    >(&mut self, scope: &Scope<'s, E>, promise: P, f: F) -> Option<PromisedHandle<T, P>>
        requires runs { F.pre f }
        requires keeps { (r : T) → F.post f r → P.kept_by promise r }
        ensures some { IfSome result (λ h. (h.promise ≡ promise) × (faults_of self.new ≡ faults_of self.old)) }
        ensures none { IfNone result (faults_of self.new ≡ faults_of self.old + 1) }
    {
        match self {
            Spawner::Threads(threads) => match scope.spawn_with(promise, f) {
                Ok(handle) => Some(handle),
                Err(_) => {
                    threads.happened.fault();
                    None
                }
            },
            Spawner::Fails(fails) => {
                fails.happened.fault();
                None
            }
        }
    }

    /// Whether a thread can be started: one is, and it's waited for. Where none can be, that's counted as a fault.
    pub fn can_start<R: Threads>(&mut self, rt: &R) -> bool
        ensures can { result ≡ true → faults_of self.new ≡ faults_of self.old }
        ensures cannot { result ≡ false → faults_of self.new ≡ faults_of self.old + 1 }
    {
        match self {
            Spawner::Threads(threads) => match thread::spawn(rt, || {}) {
                Ok(handle) => {
                    handle.join(rt);
                    true
                }
                Err(_) => {
                    threads.happened.fault();
                    false
                }
            },
            Spawner::Fails(fails) => {
                fails.happened.fault();
                false
            }
        }
    }

    /// Takes job after job, and starts each to run beside the caller. Then it waits for each one and hands over its result, in the
    /// order of starting. A job that can't be started is dropped and counted as a fault, and no further one is taken.
    pub fn run_all<R: Around, S: Jobs>(&mut self, rt: &R, jobs: &mut S) -> Spawned
        requires { S.fits jobs.old }
        ensures faults { faults_of self.new ≡ faults_of self.old + refused result }
        ensures each { S.begun jobs.new + S.ended jobs.old ≡ S.begun jobs.old + S.ended jobs.new + refused result }
        ensures over { result ≡ spawned.All → S.over jobs.new }
        ensures later { S.later jobs.old jobs.new }
        ensures fits { S.fits jobs.new }
    {
        match self {
            Spawner::Threads(threads) => threads.run_all(rt, jobs),
            Spawner::Fails(fails) => fails.run_all(rt, jobs),
        }
    }
}
