//! The table of types.

ghost use Rattle.std.specs.Prelude.{◌≡◌, ◌+◌, ◌<◌, ◌≤◌, ◌↔◌, [], ◌∷◌, ◌++◌, length, Option, Some, None, IsTrue, IfOk, IfSome, IfNone, OnOk, OnErr};
ghost use Rattle.std.specs.Prelude.{map, slice_get, option_map};
ghost use Rattle.std.specs.Option.{option_map_or, option_copied, option_and_then};
ghost use Rattle.store_core.specs.Tables as tables;
ghost use Rattle.store_core.specs.Tables.{type_at, fields_of, variants_of, field_at, type_named, field_named, type_names, field_names, place_of};
ghost use Rattle.store_core.specs.Tables.{variant_count, unnamed_of, owner_of, owner_type, owner_only, has_field, KnowsType, KnowsOwner, KnowsKind};
ghost use Rattle.store_core.specs.Tables.{IsTypeTable};

use crate::ids::{FieldId, TypeId, VariantId};
use crate::kind::{FieldKind, Owner};
use indexmap::IndexMap;
use std::alloc::{AllocError, Global};
use std::marker::Model;

/// What a type has besides its name.
#[derive(Drop)]
struct TypeBody {
    /// The named variants; the key is the name.
    variants: IndexMap<Vec<u8>, ()>,
    /// The fields of all variants; the key is the name.
    fields: IndexMap<Vec<u8>, FieldBody>,
}

/// What a field has besides its name.
#[derive(Drop)]
struct FieldBody {
    /// The index of the one variant that has it, or `None` where all have it.
    only: Option<u32>,
    kind: FieldKind,
}

/// The types of a program in the order of their declaration, each with its variants and fields. A type has one variant
/// without a name, or 1 to 16 named variants, and at most 32 fields over all its variants.
#[derive(Drop)]
pub struct TypeTable {
    /// Each type under its name; its place is its number.
    types: IndexMap<Vec<u8>, TypeBody>,
}

impl Model for TypeTable {
    ghost use Rattle.std.specs.Prelude.{List};
    ghost use Rattle.store_core.specs.Tables.{TypeEntry, IsTypeTable};
    ghost use Rattle.store_core.specs.contracts.kind.Route as route;
    ghost use Rattle.std.specs.Coded.{codes};

    ghost Value = { List TypeEntry };

    ghost coded = { Prim.hlevel (codes, route.the_row.coded) };

    ghost use Rattle.store_core.specs.TypeBodies.{entries_of};

    ghost view = { λ t. entries_of t.types.entries };

    ghost invariant = { λ t. IsTypeTable (entries_of t.types.entries) };
}

/// The type that an owner is, or is a variant of.
fn type_of(owner: Owner) -> TypeId
    ensures { result ≡ owner_type owner }
{
    match owner {
        Owner::Common(ty) => ty,
        Owner::Variant(variant) => variant.ty,
    }
}

/// The index of the one variant that an owner is.
fn variant_of(owner: Owner) -> Option<u32>
    ensures { result ≡ owner_only owner }
{
    match owner {
        Owner::Common(_) => None,
        Owner::Variant(variant) => Some(variant.index),
    }
}

impl TypeTable {
    ghost use Rattle.store_core.specs.TypeBodies.{IsBodyOf};

    /// No type. Takes no memory.
    pub fn new(alloc: Global) -> TypeTable
        ensures { result ≡ [] }
    {
        TypeTable {
            types: IndexMap::new(alloc),
        }
    }

    /// Adds a type with the one variant without a name and no field. The name is new, and there are fewer than
    /// 4,294,967,295 types.
    pub fn add_type(&mut self, name: &[u8]) -> Result<TypeId, AllocError>
        requires new { type_named self.old name.now ≡ None }
        requires room { length self.old < 4294967295 }
        ensures value { IfOk result (λ ty. ty.0 ≡ length self.old) }
        ensures added { OnOk result (self.new ≡ tables.add_type self.old name.now) }
        ensures err { OnErr result (self.new ≡ self.old) }
    {
        let alloc = *self.types.allocator();
        let index = self.types.len();
        let key = Vec::from_slice(alloc, name)?;
        let body = TypeBody {
            variants: IndexMap::new(alloc),
            fields: IndexMap::new(alloc),
        };
        self.types.insert(key, body)?;
        Ok(TypeId(index as u32))
    }

    /// How many types there are. Takes no memory.
    pub fn types(&self) -> u32
        ensures value { result ≡ length self.now }
        ensures inside { IsTypeTable self.now }
    {
        self.types.len() as u32
    }

    /// The type of this name; `None` exactly where no type has it. Takes no memory.
    pub fn find_type(&self, name: &[u8]) -> Option<TypeId>
        ensures { result ≡ type_named self.now name.now }
    {
        match self.types.get_index_of(name) {
            Some(index) => Some(TypeId(index as u32)),
            None => None,
        }
    }

    /// The name of a type; `None` exactly for an unknown number. Takes no memory.
    pub fn type_name(&self, ty: TypeId) -> Option<&[u8]>
        ensures { option_map (λ name. name.now) result ≡ option_map (λ t. t.name) (type_at self.now ty) }
    {
        let (name, _) = self.types.get_index(ty.0 as usize)?;
        Some(name.as_slice())
    }

    /// Adds a variant at the end of its type. The first one takes the place of the variant without a name, its number and
    /// the fields that are its own. The type is known and has fewer than 16 named variants, and the name is new among them.
    pub fn add_variant(&mut self, ty: TypeId, name: &[u8]) -> Result<VariantId, AllocError>
        requires known { KnowsType self.old ty }
        requires new { place_of name.now (variants_of self.old ty) ≡ None }
        requires room { length (variants_of self.old ty) < 16 }
        ensures value { IfOk result (λ v. v ≡ record { ty = ty; index = length (variants_of self.old ty) }) }
        ensures added { OnOk result (self.new ≡ tables.add_variant self.old ty name.now) }
        ensures err { OnErr result (self.new ≡ self.old) }
    {
        let key = Vec::from_slice(*self.types.allocator(), name)?;
        let Some(body) = self.types.get_index_mut(ty.0 as usize) else {
            unreachable!()
        };
        let index = body.variants.len();
        body.variants.insert(key, ())?;
        Ok(VariantId {
            ty,
            index: index as u32,
        })
    }

    /// Adds a field at the end of its type, whatever its owner, so that no number given before changes its meaning. The owner
    /// and every type and variant that the kind names are known, the type has fewer than 32 fields, and the name is new among
    /// them.
    pub fn add_field(
        &mut self,
        owner: Owner,
        name: &[u8],
        kind: FieldKind,
    ) -> Result<FieldId, AllocError>
        requires owner { KnowsOwner self.old owner }
        requires kind { KnowsKind self.old kind }
        requires new { place_of name.now (field_names (fields_of self.old (owner_type owner))) ≡ None }
        requires room { length (fields_of self.old (owner_type owner)) < 32 }
        ensures value { IfOk result (λ f. f ≡ record { ty = owner_type owner; index = length (fields_of self.old (owner_type owner)) }) }
        ensures added { OnOk result (self.new ≡ tables.add_field self.old owner name.now kind) }
        ensures err { OnErr result (self.new ≡ self.old) }
    {
        let ty = type_of(owner);
        let only = variant_of(owner);
        let key = Vec::from_slice(*self.types.allocator(), name)?;
        let Some(body) = self.types.get_index_mut(ty.0 as usize) else {
            unreachable!()
        };
        let index = body.fields.len();
        body.fields.insert(key, FieldBody { only, kind })?;
        Ok(FieldId {
            ty,
            index: index as u32,
        })
    }

    /// What a type has besides its name; `None` exactly for an unknown number. Takes no memory.
    fn body(&self, ty: TypeId) -> Option<&TypeBody>
        ensures none { IfNone result (type_at self.now ty ≡ None) }
        ensures found { IfSome result (λ body. IsBodyOf self.now ty body.now) }
    {
        let (_, body) = self.types.get_index(ty.0 as usize)?;
        Some(body)
    }

    /// The variant without a name; `None` exactly for an unknown type or one with named variants. Takes no memory.
    pub fn unnamed(&self, ty: TypeId) -> Option<VariantId>
        ensures { result ≡ unnamed_of self.now ty }
    {
        let body = self.body(ty)?;
        if body.variants.is_empty() {
            Some(VariantId { ty, index: 0 })
        } else {
            None
        }
    }

    /// How many variants a type has, the one without a name counted; 0 for an unknown type. Takes no memory.
    pub fn variants(&self, ty: TypeId) -> u32
        ensures { result ≡ variant_count self.now ty }
    {
        match self.body(ty) {
            None => 0,
            Some(body) if body.variants.is_empty() => 1,
            Some(body) => body.variants.len() as u32,
        }
    }

    /// The name of a variant; `None` exactly for an unknown one and for one without a name. Takes no memory.
    pub fn variant_name(&self, v: VariantId) -> Option<&[u8]>
        ensures { option_map (λ name. name.now) result ≡ slice_get (variants_of self.now v.ty) v.index }
    {
        let body = self.body(v.ty)?;
        let (name, _) = body.variants.get_index(v.index as usize)?;
        Some(name.as_slice())
    }

    /// The named variant of this name; `None` exactly where the type has none of it, or isn't known. Takes no memory.
    pub fn find_variant(&self, ty: TypeId, name: &[u8]) -> Option<VariantId>
        ensures { result ≡ option_map (λ i. record { ty = ty; index = i }) (place_of name.now (variants_of self.now ty)) }
    {
        let body = self.body(ty)?;
        match body.variants.get_index_of(name) {
            Some(index) => Some(VariantId {
                ty,
                index: index as u32,
            }),
            None => None,
        }
    }

    /// How many fields a type has over all its variants; 0 for an unknown type. Takes no memory.
    pub fn fields(&self, ty: TypeId) -> u32
        ensures { result ≡ length (fields_of self.now ty) }
    {
        match self.body(ty) {
            None => 0,
            Some(body) => body.fields.len() as u32,
        }
    }

    /// The field of this name; `None` exactly where the type has none, or isn't known. Takes no memory.
    pub fn find_field(&self, ty: TypeId, name: &[u8]) -> Option<FieldId>
        ensures { result ≡ field_named self.now ty name.now }
    {
        let body = self.body(ty)?;
        match body.fields.get_index_of(name) {
            Some(index) => Some(FieldId {
                ty,
                index: index as u32,
            }),
            None => None,
        }
    }

    /// The name of a field; `None` exactly for an unknown number. Takes no memory.
    pub fn field_name(&self, f: FieldId) -> Option<&[u8]>
        ensures { option_map (λ name. name.now) result ≡ option_map (λ entry. entry.name) (field_at self.now f) }
    {
        let body = self.body(f.ty)?;
        let (name, _) = body.fields.get_index(f.index as usize)?;
        Some(name.as_slice())
    }

    /// What a field holds; `None` exactly for an unknown number. Takes no memory.
    pub fn kind(&self, f: FieldId) -> Option<&FieldKind>
        ensures { option_copied result ≡ option_map (λ entry. entry.kind) (field_at self.now f) }
    {
        let body = self.body(f.ty)?;
        let (_, field) = body.fields.get_index(f.index as usize)?;
        Some(&field.kind)
    }

    /// Which variants have a field, as it was added; `None` exactly for an unknown number. Takes no memory.
    pub fn owner(&self, f: FieldId) -> Option<Owner>
        ensures { result ≡ option_map (owner_of f) (field_at self.now f) }
    {
        let body = self.body(f.ty)?;
        let (_, field) = body.fields.get_index(f.index as usize)?;
        match field.only {
            None => Some(Owner::Common(f.ty)),
            Some(index) => Some(Owner::Variant(VariantId { ty: f.ty, index })),
        }
    }

    /// Whether the variant is known and has the field. Takes no memory.
    pub fn has(&self, v: VariantId, f: FieldId) -> bool
        ensures { result ≡ has_field self.now v f }
    {
        if v.ty != f.ty || v.index >= self.variants(v.ty) {
            return false;
        }
        match self.owner(f) {
            None => false,
            Some(Owner::Common(_)) => true,
            Some(Owner::Variant(owner)) => owner.index == v.index,
        }
    }
}
