// Families of samples, in the text format of Prometheus.
ghost use Rattle.std.specs.Prelude.{◌≡◌, ◌++◌, OnOk, codes, flat_map, string_bytes};
ghost use Rattle.metrics.specs.Families.{bucket_text, gauge_text, head_text, known_seconds_text};
ghost use Rattle.metrics.specs.Families.{known_text, number_text, of_class_text, sample_text};
ghost use Rattle.metrics.specs.Families.{seconds_text, totals_text, where_known};

use std::alloc::AllocError;

/// Adds a family of one sample without labels.
#[tactic(auto, unfolding(crate::specs::Families::gauge_text))]
pub(crate) fn push_gauge(
    text: &mut String,
    name: &str,
    help: &str,
    value: u64,
) -> Result<(), AllocError>
    ensures { OnOk result (string_bytes text.new
        ≡ string_bytes text.old ++ gauge_text name.now help.now value) }
{
    push_head(text, name, "gauge", help)?;
    push_number(text, name, value)
}

/// Adds a family of one sample without labels, or of none where the value isn't known.
#[tactic(auto, unfolding(crate::specs::Families::known_text))]
pub(crate) fn push_known(
    text: &mut String,
    name: &str,
    help: &str,
    value: Option<u64>,
) -> Result<(), AllocError>
    ensures { OnOk result (string_bytes text.new
        ≡ string_bytes text.old ++ known_text name.now help.now value) }
{
    push_head(text, name, "gauge", help)?;
    push_number_if(text, name, value)
}

/// Adds a sample without labels, where its value is known.
fn push_number_if(text: &mut String, name: &str, value: Option<u64>) -> Result<(), AllocError>
    ensures { OnOk result (string_bytes text.new
        ≡ string_bytes text.old ++ where_known (number_text name.now) value) }
{
    match value {
        None => Ok(()),
        Some(value) => push_number(text, name, value),
    }
}

/// The same in seconds, of which the value has nanoseconds.
#[tactic(auto, unfolding(crate::specs::Families::known_seconds_text))]
pub(crate) fn push_known_seconds(
    text: &mut String,
    name: &str,
    help: &str,
    value: Option<u64>,
) -> Result<(), AllocError>
    ensures { OnOk result (string_bytes text.new
        ≡ string_bytes text.old ++ known_seconds_text name.now help.now value) }
{
    push_head(text, name, "gauge", help)?;
    push_seconds_if(text, name, value)
}

/// Adds a sample in seconds, of which the value has nanoseconds, where it is known.
fn push_seconds_if(text: &mut String, name: &str, value: Option<u64>) -> Result<(), AllocError>
    ensures { OnOk result (string_bytes text.new
        ≡ string_bytes text.old ++ where_known (seconds_text name.now) value) }
{
    match value {
        None => Ok(()),
        Some(value) => push_seconds(text, name, value),
    }
}

/// Adds a sample in seconds, of which the value has nanoseconds.
#[tactic(auto, unfolding(crate::specs::Families::seconds_text))]
fn push_seconds(text: &mut String, name: &str, value: u64) -> Result<(), AllocError>
    ensures { OnOk result (string_bytes text.new
        ≡ string_bytes text.old ++ seconds_text name.now value) }
{
    write!(text, "{name} {value}e-9\n")
}

/// Adds the head of a family: what it tells, and of which kind it is.
#[tactic(auto, unfolding(crate::specs::Families::head_text))]
pub(crate) fn push_head(
    text: &mut String,
    name: &str,
    kind: &str,
    help: &str,
) -> Result<(), AllocError>
    ensures { OnOk result (string_bytes text.new
        ≡ string_bytes text.old ++ head_text name.now kind.now help.now) }
{
    write!(text, "# HELP {name} {help}\n# TYPE {name} {kind}\n")
}

/// Adds a sample without labels.
#[tactic(auto, unfolding(crate::specs::Families::number_text))]
pub(crate) fn push_number(text: &mut String, name: &str, value: u64) -> Result<(), AllocError>
    ensures { OnOk result (string_bytes text.new
        ≡ string_bytes text.old ++ number_text name.now value) }
{
    write!(text, "{name} {value}\n")
}

/// Adds a sample for each word, the value of the label.
pub(crate) fn push_samples(
    text: &mut String,
    name: &str,
    label: &str,
    samples: &[(&str, u64)],
) -> Result<(), AllocError>
    ensures { OnOk result (string_bytes text.new ≡ string_bytes text.old
        ++ flat_map (λ sample. sample_text name.now label.now sample.0.now sample.1) samples.now) }
{
    for (word, value) in samples {
        push_sample(text, name, label, word, *value)?;
    }
    Ok(())
}

/// Adds a sample with one label, whose value is a word that needs no escape.
#[tactic(auto, unfolding(crate::specs::Families::sample_text))]
pub(crate) fn push_sample(
    text: &mut String,
    name: &str,
    label: &str,
    word: &str,
    value: u64,
) -> Result<(), AllocError>
    ensures { OnOk result (string_bytes text.new
        ≡ string_bytes text.old ++ sample_text name.now label.now word.now value) }
{
    write!(text, "{name}{{{label}=\"{word}\"}} {value}\n")
}

/// Adds a sample of a class with one label more, whose values are words that need no escape.
#[tactic(auto, unfolding(crate::specs::Families::of_class_text))]
pub(crate) fn push_of_class(
    text: &mut String,
    name: &str,
    class: &str,
    label: &str,
    word: &str,
    value: u64,
) -> Result<(), AllocError>
    ensures { OnOk result (string_bytes text.new
        ≡ string_bytes text.old ++ of_class_text name.now class.now label.now word.now value) }
{
    write!(
        text,
        "{name}{{class=\"{class}\",{label}=\"{word}\"}} {value}\n"
    )
}

/// Adds a histogram by its buckets, each a bound in seconds with its count, and by the sum of its
/// times in nanoseconds and how many there are.
pub(crate) fn push_histogram(
    text: &mut String,
    name: &str,
    help: &str,
    buckets: &[(&str, u64)],
    sum: u64,
    count: u64,
) -> Result<(), AllocError>
    ensures { OnOk result (string_bytes text.new ≡ string_bytes text.old
        ++ (head_text name.now (codes "histogram") help.now
        ++ flat_map (λ bucket. bucket_text name.now bucket.0.now bucket.1) buckets.now
        ++ totals_text name.now sum count)) }
{
    push_head(text, name, "histogram", help)?;
    push_buckets(text, name, buckets)?;
    push_totals(text, name, sum, count)
}

/// Adds the buckets of a histogram.
fn push_buckets(text: &mut String, name: &str, buckets: &[(&str, u64)]) -> Result<(), AllocError>
    ensures { OnOk result (string_bytes text.new ≡ string_bytes text.old
        ++ flat_map (λ bucket. bucket_text name.now bucket.0.now bucket.1) buckets.now) }
{
    for (bound, count) in buckets {
        push_bucket(text, name, bound, *count)?;
    }
    Ok(())
}

/// Adds the bucket of a histogram below this bound.
#[tactic(auto, unfolding(crate::specs::Families::bucket_text))]
fn push_bucket(text: &mut String, name: &str, bound: &str, count: u64) -> Result<(), AllocError>
    ensures { OnOk result (string_bytes text.new
        ≡ string_bytes text.old ++ bucket_text name.now bound.now count) }
{
    write!(text, "{name}_bucket{{le=\"{bound}\"}} {count}\n")
}

/// Adds the sum of a histogram's times, and how many there are.
#[tactic(auto, unfolding(crate::specs::Families::totals_text))]
fn push_totals(text: &mut String, name: &str, sum: u64, count: u64) -> Result<(), AllocError>
    ensures { OnOk result (string_bytes text.new
        ≡ string_bytes text.old ++ totals_text name.now sum count) }
{
    write!(text, "{name}_sum {sum}e-9\n{name}_count {count}\n")
}
