//! A store of 64 bytes: areas that fill it, an object that fills its area, and words that are used again.

use region_heap::{MemoryFull, Object, RegionHeap, StoreFull};
use scj_base::{AreaId, ClassId, Memory, ScopeId, Value};
use std::alloc::Global;
use std::rt::HostRuntime;

/// Whether an object has this class and area, one slot with this value, and the ceiling of a new object.
fn is_new(object: &Object<'_>, class: ClassId, area: AreaId, value: Value) -> bool {
    let is_value = match object.slot(0) {
        Ok(Some(found)) => found == value,
        _ => false,
    };
    object.class() == class
        && object.area() == area
        && object.len() == 1
        && is_value
        && object.ceiling() == 28
}

/// Whether the store is full with two areas and the second area with one object, and whether an object of the area
/// that is opened in its words has nothing of the one before.
fn is_filled_and_emptied(alloc: Global) -> Result<bool, Memory> {
    let mut heap = RegionHeap::make(alloc, 64, Vec::new(alloc))?;
    let Ok(outer) = heap.open_area(ScopeId::at(0), None, 40) else {
        return Ok(false);
    };
    let Ok(inner) = heap.open_area(ScopeId::at(1), Some(outer), 24) else {
        return Ok(false);
    };
    let Err(full) = heap.open_area(ScopeId::at(2), Some(inner), 1) else {
        return Ok(false);
    };
    if full
        != (StoreFull {
            reserved: 64,
            asked: 8,
        })
    {
        return Ok(false);
    }
    let Ok(before) = heap.alloc_object(ClassId::at(3), inner, &[Value::Int(-7)]) else {
        return Ok(false);
    };
    let Err(full) = heap.alloc_object(ClassId::at(3), inner, &[Value::Null]) else {
        return Ok(false);
    };
    if full
        != (MemoryFull {
            used: 24,
            asked: 24,
        })
    {
        return Ok(false);
    }
    heap.set_ceiling(before, 5);
    heap.close_top(inner);
    let Ok(again) = heap.open_area(ScopeId::at(1), Some(outer), 24) else {
        return Ok(false);
    };
    let Ok(after) = heap.alloc_object(ClassId::at(4), again, &[Value::Bool(true)]) else {
        return Ok(false);
    };
    let is_gone = heap.object(before).is_none();
    match heap.object(after) {
        Some(object) => Ok(is_gone && is_new(&object, ClassId::at(4), again, Value::Bool(true))),
        None => Ok(false),
    }
}

#[test]
fn a_store_of_64_bytes(rt: HostRuntime) {
    match is_filled_and_emptied(rt.alloc()) {
        Ok(is_right) => assert!(&rt; is_right),
        Err(_memory) => panic!(&rt; "no memory"),
    }
}
