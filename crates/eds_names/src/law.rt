//! Laws of names.

ghost use Rattle.std.specs.Prelude.{◌≡◌, ◌≢◌, ℕ, List, None, Ok, length, map};
ghost use Rattle.std.specs.List.{AllByRecursion};
ghost use Rattle.eds_tree.specs.declared.tree.Node.{Node};
ghost use Rattle.eds_tree.specs.Reading.{tree_in};
ghost use Rattle.eds_tree.specs.Trees.{links_of};
ghost use Rattle.eds_names.specs.Around.{name_at};
ghost use Rattle.eds_names.specs.Standings.{around, arounds_of, standings_of};
ghost use Rattle.eds_names.specs.Surroundings.{IsSurrounded};
ghost use Rattle.eds_names.specs.Declarations.{IsByPosition, comp_at, comps_in, face_at, faces_in, type_at, types_in};
ghost use Rattle.eds_names.specs.LookUp.{AreFound, LeadsToRow, Names, NamesDiffer, item_named, look_up, names_in};

use eds_tree::Trees;

/// From a place after the last file, where no element stands, a reference is looked up by itself alone.
pub fn from_the_root(trees: &Trees, text: &str)
    ensures { (names : Names) (node : ℕ) → names_in trees.now ≡ Ok names → look_up names (record { file = length trees.now; node = node }) text.now ≡ item_named names.declared text.now }
{}

/// In a sheet that is not refused no two declared items have one qualified name.
pub fn names_differ(trees: &Trees)
    ensures { (names : Names) → names_in trees.now ≡ Ok names → NamesDiffer names.declared }
{}

/// The number of a declared type is its position among the declared types, from 0, and so for interfaces and components.
pub fn numbers_are_positions(trees: &Trees)
    ensures types { (names : Names) → names_in trees.now ≡ Ok names → IsByPosition type_at (types_in names.declared) }
    ensures interfaces { (names : Names) → names_in trees.now ≡ Ok names → IsByPosition face_at (faces_in names.declared) }
    ensures components { (names : Names) → names_in trees.now ≡ Ok names → IsByPosition comp_at (comps_in names.declared) }
{}

/// A type is found under its qualified name, and a name under which a type is found is that of the type's row; and so
/// for interfaces and components.
pub fn names_lead_to_rows(trees: &Trees)
    ensures types { (names : Names) → names_in trees.now ≡ Ok names → AreFound type_at (types_in names.declared) names.declared }
    ensures interfaces { (names : Names) → names_in trees.now ≡ Ok names → AreFound face_at (faces_in names.declared) names.declared }
    ensures components { (names : Names) → names_in trees.now ≡ Ok names → AreFound comp_at (comps_in names.declared) names.declared }
    ensures type_rows { (names : Names) → names_in trees.now ≡ Ok names → LeadsToRow type_at (types_in names.declared) names.declared }
    ensures interface_rows { (names : Names) → names_in trees.now ≡ Ok names → LeadsToRow face_at (faces_in names.declared) names.declared }
    ensures component_rows { (names : Names) → names_in trees.now ≡ Ok names → LeadsToRow comp_at (comps_in names.declared) names.declared }
{}

/// The package and the component around an element are the nearest of its ancestors. In a file that was read the name
/// around an element is that of its own standing, and an element that is passed over has none.
pub fn each_element_has_its_own_surroundings()
    ensures ancestors { (t : List Node) → AllByRecursion (IsSurrounded t) (standings_of t) }
    ensures elements { (t : List Node) → map (λ s. s.node) (standings_of t) ≡ map (λ l. l.node) (links_of t) }
    ensures own { (file : ℕ) (octets : List ℕ) (t : List Node) → tree_in file octets ≡ Ok t → AllByRecursion (λ s. name_at (arounds_of t) s.node ≡ around t s) (standings_of t) }
    ensures others { (t : List Node) (n : ℕ) → AllByRecursion (λ s. s.node ≢ n) (standings_of t) → name_at (arounds_of t) n ≡ None }
{}
