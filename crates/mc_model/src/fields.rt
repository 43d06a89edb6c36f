//! What a struct keeps, field by field.

/// Names every field of a struct that is lent, and its type:
/// `every_field!(line: Said { text: Text })`. No crate that does so is built where one comes, goes
/// or is of another type.
#[macro_export]
macro_rules! every_field {
    ($whole:ident: $name:ident { $($field:ident: $kind:ty),* $(,)? }) => {{
        let $name { $($field),* } = $whole;
        $(let _part: &$kind = $field;)*
    }};
}
