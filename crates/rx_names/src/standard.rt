//! The tables of the context that holds where no other is named. They stand in the program, and take no memory.
ghost use Rattle.std.specs.Prelude.{◌≡◌, ◌<◌, length, true, IfSome, Some, slice_get};
ghost use Rattle.rx_rdfa.specs.Common.{chars, IsIri, has_scheme, lowered, seen_slice, table_value, term};
ghost use Rattle.rx_names.specs.Contexts.{standard_tables};
ghost use Rattle.rx_names.specs.Given.{given_table, are_given};
ghost use Rattle.rx_names.specs.Tables.{rise};

use crate::tables::compare_lowered;

/// The prefixes of RDFa's initial context that are in wide use, and `dcat` and `sioc`, in byte order.
static PREFIXES: [(&str, &str); 19] = [
    ("cc", "http://creativecommons.org/ns#"),
    ("dc", "http://purl.org/dc/terms/"),
    ("dcat", "http://www.w3.org/ns/dcat#"),
    ("dcterms", "http://purl.org/dc/terms/"),
    ("foaf", "http://xmlns.com/foaf/0.1/"),
    ("gr", "http://purl.org/goodrelations/v1#"),
    ("og", "http://ogp.me/ns#"),
    ("owl", "http://www.w3.org/2002/07/owl#"),
    ("prov", "http://www.w3.org/ns/prov#"),
    ("rdf", "http://www.w3.org/1999/02/22-rdf-syntax-ns#"),
    ("rdfa", "http://www.w3.org/ns/rdfa#"),
    ("rdfs", "http://www.w3.org/2000/01/rdf-schema#"),
    ("schema", "http://schema.org/"),
    ("sioc", "http://rdfs.org/sioc/ns#"),
    ("skos", "http://www.w3.org/2004/02/skos/core#"),
    ("vcard", "http://www.w3.org/2006/vcard/ns#"),
    ("void", "http://rdfs.org/ns/void#"),
    ("xhv", "http://www.w3.org/1999/xhtml/vocab#"),
    ("xsd", "http://www.w3.org/2001/XMLSchema#"),
];

/// The terms of RDFa's initial context, in byte order. Each is in lower case.
static TERMS: [(&str, &str); 3] = [
    (
        "describedby",
        "http://www.w3.org/2007/05/powder-s#describedby",
    ),
    ("license", "http://www.w3.org/1999/xhtml/vocab#license"),
    ("role", "http://www.w3.org/1999/xhtml/vocab#role"),
];

/// How many prefixes there are.
pub(crate) fn prefix_count() -> usize
    ensures count { result ≡ length standard_tables.prefixes }
    ensures in_order { rise standard_tables.prefixes ≡ true }
{
    PREFIXES.len()
}

/// A prefix and its IRI, by the prefix's place in byte order.
pub(crate) fn prefix_at(i: usize) -> (&'static str, &'static str)
    requires { i < length standard_tables.prefixes }
    ensures row { slice_get standard_tables.prefixes i ≡ Some (chars result.0.now, chars result.1.now) }
    ensures iri { IsIri (chars result.1.now) }
{
    row_at(&PREFIXES, i)
}

/// The IRI of the prefix, which is compared in lower case.
pub(crate) fn prefix(name: &str) -> Option<&'static str>
    ensures value { seen_slice result ≡ table_value (lowered (chars name.now)) standard_tables.prefixes }
    ensures scheme { IfSome result (λ iri. has_scheme (chars iri.now) ≡ true) }
{
    find_lowered(&PREFIXES, name)
}

/// The IRI of the term, or else of the term in lower case. As all terms are in lower case, one look-up tells both.
pub(crate) fn term(name: &str) -> Option<&'static str>
    ensures value { seen_slice result ≡ term standard_tables (chars name.now) }
    ensures scheme { IfSome result (λ iri. has_scheme (chars iri.now) ≡ true) }
{
    find_lowered(&TERMS, name)
}

/// The row at a place, from 0.
fn row_at<'a>(rows: &[(&'a str, &'a str)], i: usize) -> (&'a str, &'a str)
    requires given { are_given (given_table rows.now) ≡ true }
    requires place { i < length rows.now }
    ensures row { slice_get (given_table rows.now) i ≡ Some (chars result.0.now, chars result.1.now) }
    ensures iri { IsIri (chars result.1.now) }
{
    rows[i]
}

/// The IRI of the name in lower case.
fn find_lowered<'a>(rows: &[(&'a str, &'a str)], name: &str) -> Option<&'a str>
    requires { are_given (given_table rows.now) ≡ true }
    ensures value { seen_slice result ≡ table_value (lowered (chars name.now)) (given_table rows.now) }
    ensures scheme { IfSome result (λ iri. has_scheme (chars iri.now) ≡ true) }
{
    match rows.binary_search_by(|row| compare_lowered(row.0, name)) {
        Ok(at) => Some(rows[at].1),
        Err(_gap) => None,
    }
}
