// From the numbers of a limit and its windows to the limit.
ghost use Rattle.std.specs.Option.{ForSome};
ghost use Rattle.std.specs.Prelude.{◌≡◌, IsOk};
ghost use Rattle.windowed.specs.WindowedRules.{windows_made};
ghost use Rattle.limit_kinds.specs.AnyKinds.{any_from};
ghost use Rattle.limit_kinds.specs.Kinds.{first_limit, limit_made};

use limit_kinds::{AnyLimit, LimitSpec};
use windowed::{WindowNumbers, WindowSettings};

/// The limit of these numbers, over windows where there are numbers of some.
pub fn any_limit(limit: LimitSpec, window: Option<WindowNumbers>) -> AnyLimit
    requires limit { IsOk (limit_made limit) }
    requires window { ForSome window (λ numbers. IsOk (windows_made numbers)) }
    ensures { result ≡ any_from (first_limit limit) window }
{
    let base = match limit.make() {
        Ok(base) => base,
        Err(_) => unreachable!(),
    };
    match window {
        None => AnyLimit::new(base, None),
        Some(numbers) => AnyLimit::new(base, Some(windows(numbers))),
    }
}

/// The windows of these numbers.
fn windows(numbers: WindowNumbers) -> WindowSettings
    requires { IsOk (windows_made numbers) }
    ensures { result ≡ numbers }
{
    match WindowSettings::of(numbers) {
        Ok(settings) => settings,
        Err(_) => unreachable!(),
    }
}
