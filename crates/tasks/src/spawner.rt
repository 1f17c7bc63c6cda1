// What starts threads.
ghost use Rattle.std.specs.Prelude.{◌≡◌};
ghost use Rattle.tasks.specs.Refused.{refused_of};

/// What starts threads, and counts how many the system refused. Only [`run_tasks_beside`] raises
/// that.
///
/// [`run_tasks_beside`]: crate::run_tasks_beside
#[derive(Drop)]
pub struct Spawner<'a, R> {
    pub(crate) rt: &'a R,
    pub(crate) refused: u64,
}

impl<'a, R> Spawner<'a, R> {
    /// One that was refused none yet.
    pub fn new(rt: &'a R) -> Spawner<'a, R>
        ensures { refused_of result ≡ 0 }
    {
        Spawner { rt, refused: 0 }
    }
}
