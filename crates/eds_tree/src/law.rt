//! Laws of element trees.

ghost use Rattle.std.specs.Prelude.{◌≡◌, ◌↔◌, ℕ, List, [], Some, None, Ok, false, map, All};
ghost use Rattle.std.specs.List.{IsAmong};
ghost use Rattle.eds_tree.specs.declared.tree.Node.{Node};
ghost use Rattle.eds_tree.specs.ByteOrder.{first_in_order, precedes};
ghost use Rattle.eds_tree.specs.Reading.{tree_in};
ghost use Rattle.eds_tree.specs.Trees.{links_of};
ghost use Rattle.eds_tree.specs.Walks.{Descends, RiseFrom};

/// The first in order of some texts is one of them, and none of them comes before it. There is none exactly where
/// there are no texts.
pub fn first_in_order_is_least()
    ensures one { (texts : List (List ℕ)) (first : List ℕ) → first_in_order texts ≡ Some first → IsAmong texts first }
    ensures least { (texts : List (List ℕ)) (first : List ℕ) → first_in_order texts ≡ Some first → All (λ other. precedes other first ≡ false) texts }
    ensures none { (texts : List (List ℕ)) → (first_in_order texts ≡ None) ↔ (texts ≡ []) }
{}

/// In a file that was read each element stands once among those that are not passed over, and none is left out: none
/// stands deeper than there are elements.
pub fn each_element_stands_once()
    ensures once { (file : ℕ) (octets : List ℕ) (t : List Node) → tree_in file octets ≡ Ok t → RiseFrom 0 (map (λ l. l.node) (links_of t)) }
    ensures all { (file : ℕ) (octets : List ℕ) (t : List Node) (n : ℕ) (ancestors : List ℕ) → tree_in file octets ≡ Ok t → Descends t n ancestors → IsAmong (map (λ l. l.node) (links_of t)) n }
{}
