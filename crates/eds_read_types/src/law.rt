//! Laws of scalar types, and of chains of bases.

ghost use Rattle.std.specs.Prelude.{◌≡◌, ◌≤◌, ◌↔◌, ◌==◌, ℕ, ℤ, List, [], ◌∷◌, Option, Bool, true, false, IsSome, IfSome};
ghost use Rattle.std.specs.List.{list_any};
ghost use Rattle.eds_base.specs.declared.ids.Place.{Place as place};
ghost use Rattle.eds_base.specs.declared.ids.TypeId.{TypeId as type_id};
ghost use Rattle.eds_base.specs.declared.rule.Rule.TheVariants.{BaseCycle};
ghost use Rattle.eds_base.specs.declared.spans.Span.{Span as span};
ghost use Rattle.eds_base.specs.Spans.{IsWithin, Rises};
ghost use Rattle.eds_bits.specs.declared.forms.Encoding.{Encoding as encoding_type};
ghost use Rattle.eds_bits.specs.declared.forms.ByteOrder.{ByteOrder as order_type};
ghost use Rattle.eds_bits.specs.Encodings.{IsForm};
ghost use Rattle.eds_bits.specs.IntForms.{HasNumber};
ghost use Rattle.eds_types.specs.Rules.{IsDomain, IsListing, IsSubRange};
ghost use Rattle.eds_type_rows.specs.Forms.{int_form, bool_form, bool_form_of};
ghost use Rattle.eds_domains.specs.Ranges.{Admits};
ghost use Rattle.eds_domains.specs.Domains.{domain_of, narrowed, has_none};
ghost use Rattle.eds_type_rows.specs.Listings.{is_listing};
ghost use Rattle.eds_type_rows.specs.ScalarKinds.{is_integer, is_enumerated, is_boolean};
ghost use Rattle.eds_read_types.specs.Breaks.{broken};
ghost use Rattle.eds_type_rows.specs.Bases.{bases_within, all_bases, is_in_cycle};
ghost use Rattle.eds_read_types.specs.BaseCycle.{cycle_at};
ghost use Rattle.eds_tree.specs.declared.tree.Node.{Node as node};
ghost use Rattle.eds_types.specs.Rows.{Table};
ghost use Rattle.eds_graph.specs.Ways.{is_endless};
ghost use Rattle.eds_read_types.specs.Nesting.{course_of};
ghost use Rattle.eds_read_types.specs.LimitChain.{chain_at};
ghost use Rattle.eds_read_types.specs.BadEncoding.{encoding_breaks};
ghost use Rattle.eds_read_types.specs.EmptyRange.{range_breaks};
ghost use Rattle.eds_read_types.specs.BadEnumeration.{enumeration_breaks};
ghost use Rattle.eds_read_types.specs.Unbroken.{HasDomain, HasListing};

use eds_base::{Place, Spans};
use eds_bits::IntForm;
use eds_domains::Range;
use eds_tree::Tree;

/// A size, an encoding and a byte order give a form exactly where the size is from 1 to 64 bits and has whole decimal digits
/// and, in little-endian order, whole octets; and the form has these parts. A truth value may have any size from 1 to 64 bits.
pub fn forms_of_parts()
    ensures numbers { (bits : ℕ) (encoding : encoding_type) (order : order_type) → IsSome (int_form bits encoding order) ↔ IsForm bits encoding order }
    ensures parts { (bits : ℕ) (encoding : encoding_type) (order : order_type) → IfSome (int_form bits encoding order) (λ f. (f.bits ≡ bits) × (f.encoding ≡ encoding) × (f.order ≡ order)) }
    ensures truths { (bits : ℕ) (zero_is_false : Bool) → IsSome (bool_form bits zero_is_false) ↔ ((1 ≤ bits) × (bits ≤ 64)) }
    ensures meanings { (bits : ℕ) (zero_is_false : Bool) → IfSome (bool_form bits zero_is_false) (λ f. (f.bits ≡ bits) × (f.zero_is_false ≡ zero_is_false)) }
{}

/// The domain of an integer type holds exactly the numbers that its form has and its range admits, and where it holds one it
/// is a domain as the table of types asks for.
pub fn domains(form: IntForm, range: Range)
    ensures numbers { (n : ℤ) → IsWithin (domain_of form range) n ↔ (HasNumber form n × Admits range n) }
    ensures kept { has_none (domain_of form range) ≡ false → IsDomain form (domain_of form range) }
{}

/// The domain of a sub-range holds exactly the numbers of its base that its range admits, and where it holds one it is a
/// domain and the sub-range derives from its base, as the table of types asks for.
pub fn sub_ranges(form: IntForm, base: &Spans, range: Range)
    ensures numbers { (n : ℤ) → IsWithin (narrowed range base.now) n ↔ (IsWithin base.now n × Admits range n) }
    ensures kept { IsDomain form base.now → has_none (narrowed range base.now) ≡ false → IsDomain form (narrowed range base.now) }
    ensures derives { IsSubRange form (narrowed range base.now) form base.now }
{}

/// A set of numbers is kept as one list alone.
pub fn one_list()
    ensures { (one other : List span) → Rises one → Rises other → ((n : ℤ) → IsWithin one n ↔ IsWithin other n) → one ≡ other }
{}

/// What an enumerated type of a form may list is what the table of types asks for.
pub fn listings(form: IntForm)
    ensures { (listing : List (List ℕ × ℤ)) → (is_listing form listing ≡ true) ↔ IsListing form listing }
{}

/// An integer type that breaks none of the rules on scalar types has a form and a domain, an enumerated type a form and a
/// listing, and a boolean type a form, as the table of types asks for.
pub fn unbroken_types(tree: &Tree, at: Place)
    ensures integers { is_integer tree.now at.node ≡ true → encoding_breaks tree.now at ≡ [] → range_breaks tree.now at ≡ [] → HasDomain tree.now at.node }
    ensures enumerations { is_enumerated tree.now at.node ≡ true → encoding_breaks tree.now at ≡ [] → enumeration_breaks tree.now at ≡ [] → HasListing tree.now at.node }
    ensures truths { is_boolean tree.now at.node ≡ true → encoding_breaks tree.now at ≡ [] → IsSome (bool_form_of tree.now at.node) }
{}

/// However far the bases of a type are followed, none is found that is not among its first ones, as many as there are types. A type
/// that is its own base is refused as such, and no type for a long chain that reaches such a type, or one that reaches itself.
pub fn circles()
    ensures bases { (bases : List (Option type_id)) (id other n : ℕ) → list_any (λ base. base == other) (bases_within n bases id) ≡ true → list_any (λ base. base == other) (all_bases bases id) ≡ true }
    ensures refused { (bases : List (Option type_id)) (id : ℕ) (at : place) → is_in_cycle bases id ≡ true → cycle_at bases id at ≡ broken BaseCycle at ∷ [] }
    ensures apart { (trees : List (List node)) (t : Table) (id : ℕ) (at : place) → is_endless (course_of t id) ≡ true → chain_at trees t id at ≡ [] }
{}
