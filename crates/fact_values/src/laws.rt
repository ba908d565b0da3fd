ghost use Rattle.std.specs.Prelude.{◌≡◌, List, [], ◌∷◌};
ghost use Rattle.std.specs.Ordering.{nat_cmp};
ghost use Rattle.std.specs.Cmp.{IsTotalOrder};
ghost use Rattle.std.specs.Cmp.Lexicographic.{slice_cmp};
ghost use Rattle.std.specs.declared.cmp.Ordering.TheVariants.{Equal};
ghost use Rattle.fact_values.specs.declared.object.Obj.{Obj};
ghost use Rattle.fact_values.specs.declared.object.Holder.{Holder};
ghost use Rattle.fact_values.specs.declared.object.Target.{Target};
ghost use Rattle.fact_values.specs.declared.part.Part.{Part};
ghost use Rattle.fact_values.specs.declared.consequence.Consequence.{Consequence};
ghost use Rattle.fact_values.specs.Objects.{obj_cmp, obj_numbers, holder_cmp, holder_numbers, target_cmp, target_numbers};
ghost use Rattle.fact_values.specs.PartOrder.{part_cmp, part_numbers};
ghost use Rattle.fact_values.specs.Facts.{View, Holds, Below, AreAlike, Weaker, IsLeastWith, IsLeastWithAll};

/// Facts are ordered: each holds what it holds, what is above the upper ones is above the lower ones, and facts that
/// are below each other hold the same.
pub fn facts_are_ordered()
    ensures reflexive { (f : View) → Below f f }
    ensures transitive { (f g h : View) → Below f g → Below g h → Below f h }
    ensures alike { (f g : View) → Below f g → Below g f → AreAlike f g }
    ensures weaker { (f : View) (q r : Consequence) → Weaker q r → Holds f r → Holds f q }
{}

/// Facts are never larger than what was added to them.
pub fn added_facts_are_least()
    ensures none { (f : View) → IsLeastWithAll f [] f }
    ensures more { (f g h : View) (list : List Consequence) (q : Consequence) → IsLeastWithAll f list g → IsLeastWith g q h → IsLeastWithAll f (q ∷ list) h }
{}

/// Objects, holders, targets and parts are ordered as their lists of numbers.
pub fn keys_are_ordered_by_numbers()
    ensures objects { (a b : Obj) → obj_cmp a b ≡ slice_cmp nat_cmp (obj_numbers a) (obj_numbers b) }
    ensures holders { (a b : Holder) → holder_cmp a b ≡ slice_cmp nat_cmp (holder_numbers a) (holder_numbers b) }
    ensures targets { (a b : Target) → target_cmp a b ≡ slice_cmp nat_cmp (target_numbers a) (target_numbers b) }
    ensures parts { (a b : Part) → part_cmp a b ≡ slice_cmp nat_cmp (part_numbers a) (part_numbers b) }
{}

/// The orders of keys are total, and what they do not tell apart is equal.
pub fn key_orders_are_total()
    ensures objects { IsTotalOrder obj_cmp }
    ensures holders { IsTotalOrder holder_cmp }
    ensures targets { IsTotalOrder target_cmp }
    ensures parts { IsTotalOrder part_cmp }
    ensures objects_apart { (a b : Obj) → obj_cmp a b ≡ Equal → a ≡ b }
    ensures holders_apart { (a b : Holder) → holder_cmp a b ≡ Equal → a ≡ b }
    ensures targets_apart { (a b : Target) → target_cmp a b ≡ Equal → a ≡ b }
    ensures parts_apart { (a b : Part) → part_cmp a b ≡ Equal → a ≡ b }
{}
