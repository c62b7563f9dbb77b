//! The laws, each for marks of nodes and for messages of inboxes.
ghost use Rattle.std.specs.Prelude.{◌≡◌, ◌+◌, ◌<◌, ◌≤◌, not, ℕ, Bool, List, slice_index, count_by, IsTrue};
ghost use Rattle.quorums.specs.Counts.{count, SomeNode, SomeCorrect, HasFewFaults, AgreeAt, IsMessageList, AgreeOn};

/// States the easy facts: a count is at most n, a mark and its negation add up to n, and a mark that implies another
/// counts at most as many.
pub fn a_count_is_bounded()
    ensures most { (n : ℕ) (a : ℕ → Bool) → count n a ≤ n }
    ensures negation { (n : ℕ) (a : ℕ → Bool) → count n a + count n (λ j. not (a j)) ≡ n }
    ensures implied { (n : ℕ) (a b : ℕ → Bool) → ((j : ℕ) → j < n → IsTrue (a j) → IsTrue (b j)) →
        count n a ≤ count n b }
    ensures inbox_most { (n : ℕ) (inbox : List ℕ) (s : ℕ → Bool) → IsMessageList n inbox → count_by s inbox ≤ n }
    ensures inbox_negation { (n : ℕ) (inbox : List ℕ) (s : ℕ → Bool) → IsMessageList n inbox →
        count_by s inbox + count_by (λ v. not (s v)) inbox ≡ n }
    ensures inbox_implied { (inbox : List ℕ) (s t : ℕ → Bool) → ((v : ℕ) → IsTrue (s v) → IsTrue (t v)) →
        count_by s inbox ≤ count_by t inbox }
{}

/// States *more than f*: if more than f messages of an inbox pass a test, that of a correct node does.
pub fn a_correct_message_passes()
    ensures marks { (n f : ℕ) (correct a : ℕ → Bool) → HasFewFaults n f correct → f < count n a →
        SomeCorrect n correct (λ w. IsTrue (a w)) }
    ensures inbox { (n f : ℕ) (correct : ℕ → Bool) (inbox : List ℕ) (s : ℕ → Bool) → IsMessageList n inbox →
        HasFewFaults n f correct → f < count_by s inbox →
        SomeCorrect n correct (λ w. IsTrue (s (slice_index inbox w))) }
{}

/// States *one inbox*: if two tests pass more than n messages in all, one message passes both.
pub fn one_message_passes_both()
    ensures marks { (n : ℕ) (a b : ℕ → Bool) → n < count n a + count n b →
        SomeNode n (λ w. IsTrue (a w) × IsTrue (b w)) }
    ensures inbox { (n : ℕ) (inbox : List ℕ) (s t : ℕ → Bool) → IsMessageList n inbox →
        n < count_by s inbox + count_by t inbox →
        SomeNode n (λ w. IsTrue (s (slice_index inbox w)) × IsTrue (t (slice_index inbox w))) }
{}

/// States *two inboxes*: if a test of p's messages and a test of q's messages pass more than n + f in all, a correct
/// node sent both the same message, and it passes both.
pub fn one_correct_message_passes_both()
    ensures marks { (n f : ℕ) (correct a b : ℕ → Bool) → HasFewFaults n f correct → n + f < count n a + count n b →
        SomeCorrect n correct (λ w. IsTrue (a w) × IsTrue (b w)) }
    ensures inboxes { (n f : ℕ) (correct : ℕ → Bool) (p q : List ℕ) (s t : ℕ → Bool) → IsMessageList n p → IsMessageList n q →
        AgreeOn n correct p q → HasFewFaults n f correct → n + f < count_by s p + count_by t q →
        SomeCorrect n correct (λ w. (slice_index p w ≡ slice_index q w) ×
        IsTrue (s (slice_index p w)) × IsTrue (t (slice_index p w))) }
{}

/// States that the counts of one test in two inboxes differ by f at most.
pub fn counts_differ_by_faults()
    ensures marks { (n f : ℕ) (correct a b : ℕ → Bool) → HasFewFaults n f correct → AgreeAt n correct a b →
        count n a ≤ count n b + f }
    ensures inboxes { (n f : ℕ) (correct : ℕ → Bool) (p q : List ℕ) (s : ℕ → Bool) → IsMessageList n p → IsMessageList n q →
        AgreeOn n correct p q → HasFewFaults n f correct → count_by s p ≤ count_by s q + f }
{}

/// States that no law holds with less: each clause has a law with a premise left out or its bound lowered, and denies
/// it. The benches that show it have four nodes, of which one is not correct.
pub fn no_bound_is_lower()
    // the first law with f messages, and with no set of correct nodes
    ensures f_messages { ((n f : ℕ) (correct : ℕ → Bool) (inbox : List ℕ) (s : ℕ → Bool) → IsMessageList n inbox →
        HasFewFaults n f correct → f ≤ count_by s inbox →
        SomeCorrect n correct (λ w. IsTrue (s (slice_index inbox w)))) → ⊥ }
    ensures any_faults { ((n f : ℕ) (correct : ℕ → Bool) (inbox : List ℕ) (s : ℕ → Bool) → IsMessageList n inbox →
        f < count_by s inbox → SomeCorrect n correct (λ w. IsTrue (s (slice_index inbox w)))) → ⊥ }
    // the second law with n messages
    ensures n_messages { ((n : ℕ) (inbox : List ℕ) (s t : ℕ → Bool) → IsMessageList n inbox →
        n ≤ count_by s inbox + count_by t inbox →
        SomeNode n (λ w. IsTrue (s (slice_index inbox w)) × IsTrue (t (slice_index inbox w)))) → ⊥ }
    // the second law for two inboxes, which is the third with f left out
    ensures two_inboxes { ((n f : ℕ) (correct : ℕ → Bool) (p q : List ℕ) (s t : ℕ → Bool) → IsMessageList n p →
        IsMessageList n q → AgreeOn n correct p q → HasFewFaults n f correct → n < count_by s p + count_by t q →
        SomeNode n (λ w. (slice_index p w ≡ slice_index q w) ×
        IsTrue (s (slice_index p w)) × IsTrue (t (slice_index p w)))) → ⊥ }
    // the third law with n + f messages
    ensures n_and_f_messages { ((n f : ℕ) (correct : ℕ → Bool) (p q : List ℕ) (s t : ℕ → Bool) → IsMessageList n p →
        IsMessageList n q → AgreeOn n correct p q → HasFewFaults n f correct → n + f ≤ count_by s p + count_by t q →
        SomeNode n (λ w. (slice_index p w ≡ slice_index q w) ×
        IsTrue (s (slice_index p w)) × IsTrue (t (slice_index p w)))) → ⊥ }
    // the same count in both inboxes
    ensures same_counts { ((n f : ℕ) (correct : ℕ → Bool) (p q : List ℕ) (s : ℕ → Bool) → IsMessageList n p →
        IsMessageList n q → AgreeOn n correct p q → HasFewFaults n f correct → count_by s p ≤ count_by s q) → ⊥ }
{}
