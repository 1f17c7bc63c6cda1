// Refusals beside the history of the gate that gave them.
ghost use Rattle.std.specs.Prelude.{◌≡◌, true};
ghost use Rattle.load_run.specs.Workers.{AllFit, AllOfAllFit, Fits};

use gate_history::{Naming, Spent};

/// Whether all refusals of all workers fit a history of so many entries.
pub(crate) fn all_fit<M: Naming>(spent: &Vec<Vec<Spent<M>>>, entries: u64) -> bool
    ensures { result ≡ true → AllOfAllFit M.making entries spent.now.items }
{
    for number in 0..spent.len() {
        if !fit(&spent[number], entries) {
            return false;
        }
    }
    true
}

/// Whether the refusals of a worker do.
fn fit<M: Naming>(refusals: &Vec<Spent<M>>, entries: u64) -> bool
    ensures { result ≡ true → AllFit M.making entries refusals.now.items }
{
    for place in 0..refusals.len() {
        if !fits(&refusals[place], entries) {
            return false;
        }
    }
    true
}

/// Whether a refusal does: it held no more entries.
fn fits<M: Naming>(refusal: &Spent<M>, entries: u64) -> bool
    ensures { result ≡ true → Fits M.making entries refusal.now }
{
    let (_kept, _is_rolling) = (refusal.kept(), refusal.is_rolling());
    refusal.held() <= entries
}
