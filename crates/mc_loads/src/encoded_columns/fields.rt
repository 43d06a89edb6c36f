//! What is kept of encoded columns, field by field: a new one is named here before the crate is
//! built again.

use super::EncodedColumns;
use bytes::Bytes;
use mc_model::every_field;
use std::collections::BTreeMap;

/// Names every field of encoded columns.
fn name_fields(encoded: &EncodedColumns) {
    every_field!(encoded: EncodedColumns {
        loads: BTreeMap<(i32, i32), Bytes>,
        changes: BTreeMap<(i32, i32), Bytes>,
    });
}

const _: fn(&EncodedColumns) = name_fields;
