// What finds the parts of a head among the bytes that a reader shows.
ghost use Rattle.std.specs.Prelude.{◌≤◌, ◌<◌, IfSome, IsNone, length, take};
ghost use Rattle.message_reading.specs.HeadTexts.{IsHeadText};

use httparse::spans::HeaderSpan;

/// The parts of a head, whose lines are covered by spans beside them.
pub(crate) trait HeadParts: Copy {
    ghost use Rattle.std.specs.Prelude.{ℕ, List};
    ghost use Rattle.httparse.specs.declared.spans.HeaderSpan.{HeaderSpan};

    // The parts and the spans are those of the head that the bytes are.
    ghost are_of: { Self → List HeaderSpan → List ℕ → Type 0 };

    // No head with so many lines behind its first one, or fewer, stands in front of the bytes.
    ghost has_none: { ℕ → List ℕ → Type 0 };

    /// The parts of the head that stands in front of the bytes shown, and its length, where there
    /// are spans for its lines.
    fn find(shown: &[u8], spans: &mut [HeaderSpan]) -> Option<(Self, usize)>
        requires bytes { length shown.now ≤ 65536 }
        requires lines { length spans.old ≤ 100 }
        ensures bound { IfSome result (λ found. found.1 ≤ length shown.now) }
        ensures some { IfSome result (λ found. 0 < found.1) }
        ensures parts { IfSome result (λ found.
            are_of found.0 spans.new (take found.1 shown.now)) }
        ensures head { IfSome result (λ found. IsHeadText (take found.1 shown.now)) }
        ensures none { IsNone result → has_none (length spans.old) shown.now };
}
