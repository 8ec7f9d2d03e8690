//! Laws over the definitions alone: how what several calls did adds up.
ghost use Rattle.std.specs.Prelude.{◌≡◌, ℕ, ◌+◌, ◌≤◌, false, List, ◌++◌, [], Option};
ghost use Rattle.h263_outside.specs.Desk.{Outside, Rose, OnlyReads, OnlyWrites, appended, consumed, is_role, GainsFront};
ghost use Rattle.h263_outside.specs.Gains.{gained, Before, Front};
ghost use Rattle.h263_outside.specs.declared.desk.Role.{Role};

/// One call after another: what both leave as it was, what a role gained or lost in both, and a
/// count that rose.
pub fn calls()
    ensures reads { (a b c : Outside) → OnlyReads a b → OnlyReads b c → OnlyReads a c }
    ensures writes { (a b c : Outside) → OnlyWrites a b → OnlyWrites b c → OnlyWrites a c }
    ensures gained { (first : Role → Option (List ℕ)) (role : Role)
        (a b ab : List ℕ) (middle last : Role → Option (List ℕ)) → middle ≡ appended first role a
        → last ≡ appended middle role b → a ++ b ≡ ab → last ≡ appended first role ab }
    ensures lost { (first : Role → Option (List ℕ)) (role : Role)
        (a b ab : ℕ) (middle last : Role → Option (List ℕ)) → middle ≡ consumed first role a
        → last ≡ consumed middle role b → a + b ≡ ab → last ≡ consumed first role ab }
    ensures rose_since { (a b c : ℕ) → a ≤ b → Rose b c → Rose a c }
    ensures rose_before { (a b c : ℕ) → Rose a b → b ≤ c → Rose a c }
{}

/// A text that one role gains part by part.
pub fn fronts()
    ensures nothing { (all : List ℕ) (old new : Option (List ℕ))
        → new ≡ old → Before all all old new }
    ensures part { (part rest all : List ℕ) (old middle new : Option (List ℕ)) →
        Before (part ++ rest) all old middle → new ≡ gained middle part → Before rest all old new }
    ensures front_of_part { (part rest all : List ℕ) (old middle new : Option (List ℕ))
        → Before (part ++ rest) all old middle → Front part middle new → Front all old new }
    ensures all { (all : List ℕ) (old new : Option (List ℕ))
        → Before [] all old new → new ≡ gained old all }
    ensures so_far { (rest all : List ℕ) (old new : Option (List ℕ))
        → Before rest all old new → Front all old new }
    ensures stays { (rest all : List ℕ) (old middle new : Option (List ℕ))
        → Before rest all old middle → new ≡ middle → Before rest all old new }
{}

/// A text that one role gains after another: a prefix of the first is a prefix of both, and so is a
/// prefix of the second after the first.
pub fn fronts_of_two()
    ensures first { (role : Role) (a b : List ℕ) (old new : Role → Option (List ℕ))
        → GainsFront role a old new → GainsFront role (a ++ b) old new }
    ensures second { (role : Role) (a b : List ℕ) (old middle new : Role → Option (List ℕ))
        → middle ≡ appended old role a
        → GainsFront role b middle new → GainsFront role (a ++ b) old new }
{}

/// What a write on one role says of that role, and of each other one.
pub fn roles()
    ensures gains { (role : Role) (bytes : List ℕ) (old new : Role → Option (List ℕ))
        → new ≡ appended old role bytes → new role ≡ gained (old role) bytes }
    ensures stays { (role r : Role) (bytes : List ℕ) (old new : Role → Option (List ℕ))
        → is_role role r ≡ false → new ≡ appended old role bytes → new r ≡ old r }
    ensures front { (role : Role) (all : List ℕ) (old new : Role → Option (List ℕ))
        → GainsFront role all old new → Front all (old role) (new role) }
    ensures front_stays { (role r : Role) (all : List ℕ) (old new : Role → Option (List ℕ))
        → is_role role r ≡ false → GainsFront role all old new → new r ≡ old r }
{}
