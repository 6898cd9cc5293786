//! Writes and their answers.

use crate::fixed::answer_at;
use crate::parts::{body, status};
use crate::same;
use sb_http::Door;
use std::alloc::Global;
use std::process::Abort;
use std::random::RandomSource;

/// Compares the status and the body of the answer to a request for this target with this body.
fn case<R: Abort + RandomSource>(
    rt: &R,
    alloc: Global,
    line: &str,
    sent: &str,
    wanted: &str,
    content: &str,
) {
    let length = sent.len();
    let request = crate::got(
        rt,
        format!(in alloc; "{line} HTTP/1.1\r\nHost: x\r\nContent-Length: {length}\r\n\r\n{sent}"),
    );
    let found = answer_at(rt, alloc, Door::Socket, request.as_bytes());
    same(rt, &status(&found), &wanted);
    same(rt, &body(&found), &content);
}

#[test]
fn each_kind_is_written(rt: HostRuntime) {
    let alloc = rt.alloc();
    let one = "{\"version\":1}\n";
    let weight = "{\"kind\":\"weight\",\"value\":5}";
    case(
        &rt,
        alloc,
        "PUT /v1/keys/web/k",
        weight,
        "200",
        "{\"version\":5}\n",
    );
    case(
        &rt,
        alloc,
        "PUT /v1/keys/web%2Fk",
        weight,
        "200",
        "{\"version\":5}\n",
    );
    case(
        &rt,
        alloc,
        "PUT /v1/keys?key=web/k",
        weight,
        "200",
        "{\"version\":5}\n",
    );
    let flag = " {\"value\" : true, \"kind\" : \"flag\"}\n";
    case(&rt, alloc, "PUT /v1/keys/k", flag, "200", one);
    let addr = "{\"kind\":\"addr\",\"value\":\"10.0.0.1:80\"}";
    case(&rt, alloc, "PUT /v1/keys/k", addr, "200", one);
    let text = "{\"kind\":\"text\",\"value\":\"Gr\\u00fc\\u00dfe\\n\"}";
    case(&rt, alloc, "PUT /v1/keys/k", text, "200", one);
    let twice = "{\"kind\":\"flag\",\"value\":4,\"kind\":\"weight\",\"value\":6}";
    case(
        &rt,
        alloc,
        "PUT /v1/keys/k",
        twice,
        "200",
        "{\"version\":6}\n",
    );
}

#[test]
fn a_body_that_is_no_value_is_refused(rt: HostRuntime) {
    let alloc = rt.alloc();
    let form =
        "{\"error\":\"the body is JSON of this form: {\\\"kind\\\":\\\"weight\\\",\\\"value\\\":5}\"}\n";
    for sent in [
        "",
        "5",
        "[]",
        "{}",
        "{\"kind\":\"weight\"}",
        "{\"kind\":\"weight\",\"value\":5",
        "{\"kind\":\"weight\",\"value\":5,\"x\":1}",
        "{\"kind\":\"weight\",\"values\":5}",
        "{\"kind\":\"text\",\"value\":\"\\ud800\"}",
        "{\"kind\":\"weight\",\"value\":5}5",
    ] {
        case(&rt, alloc, "PUT /v1/keys/k", sent, "400", form);
    }
    let value =
        "{\"error\":\"a value is addr with 1 to 128 printing bytes, weight a whole number from 0 to 2^63 - 1 without quotes, flag true or false, or text of 1 to 512 UTF-8 bytes\",\"fault\":4}\n";
    for sent in [
        "{\"kind\":\"weight\",\"value\":\"5\"}",
        "{\"kind\":\"weight\",\"value\":-1}",
        "{\"kind\":\"weight\",\"value\":5.5}",
        "{\"kind\":\"weight\",\"value\":5e0}",
        "{\"kind\":\"weight\",\"value\":9223372036854775808}",
        "{\"kind\":\"flag\",\"value\":\"true\"}",
        "{\"kind\":\"addr\",\"value\":\"a b\"}",
        "{\"kind\":\"text\",\"value\":\"\"}",
        "{\"kind\":\"text\",\"value\":null}",
    ] {
        case(&rt, alloc, "PUT /v1/keys/k", sent, "400", value);
    }
}

#[test]
fn a_kind_that_is_none_is_refused(rt: HostRuntime) {
    let alloc = rt.alloc();
    let kind = "{\"error\":\"the kind is addr, weight, flag or text\",\"fault\":4}\n";
    for sent in [
        "{\"kind\":\"x\",\"value\":5}",
        "{\"kind\":\"adr\",\"value\":\"\"}",
        "{\"kind\":5,\"value\":5}",
    ] {
        case(&rt, alloc, "PUT /v1/keys/k", sent, "400", kind);
    }
}

#[test]
fn a_fault_of_a_write_has_its_status(rt: HostRuntime) {
    let alloc = rt.alloc();
    let gone = "{\"error\":\"there is nothing to remove under this key\",\"fault\":9}\n";
    case(&rt, alloc, "DELETE /v1/keys/k", "", "404", gone);
    case(&rt, alloc, "DELETE /v1/keys?key=k", "5", "404", gone);
    let full =
        "{\"error\":\"the owner has 4,096 keys, removed ones counted; write under a key that it has\",\"fault\":6}\n";
    case(
        &rt,
        alloc,
        "PUT /v1/keys/k",
        "{\"kind\":\"text\",\"value\":\"fault 6\"}",
        "507",
        full,
    );
    let spent =
        "{\"error\":\"the owner has used every version that the settings allow\",\"fault\":8}\n";
    case(
        &rt,
        alloc,
        "PUT /v1/keys/k",
        "{\"kind\":\"text\",\"value\":\"fault 8\"}",
        "507",
        spent,
    );
    let conflict =
        "{\"error\":\"another node writes under this node's name; give each node a name of its own\",\"fault\":21}\n";
    case(
        &rt,
        alloc,
        "PUT /v1/keys/k",
        "{\"kind\":\"text\",\"value\":\"fault 21\"}",
        "409",
        conflict,
    );
    let closed =
        "{\"error\":\"the log of this node takes no writes, or the node ends: its standard error says why\",\"fault\":15}\n";
    case(
        &rt,
        alloc,
        "PUT /v1/keys/k",
        "{\"kind\":\"text\",\"value\":\"fault 15\"}",
        "503",
        closed,
    );
}

#[test]
fn a_write_that_may_have_been_made_is_named(rt: HostRuntime) {
    let alloc = rt.alloc();
    let failed =
        "{\"error\":\"the node could not write its log, and takes no more writes: its standard error says why; this write may have been made\",\"fault\":18}\n";
    case(
        &rt,
        alloc,
        "PUT /v1/keys/k",
        "{\"kind\":\"text\",\"value\":\"fault 18\"}",
        "503",
        failed,
    );
}

#[test]
fn a_write_has_a_key_and_a_method(rt: HostRuntime) {
    let alloc = rt.alloc();
    let key =
        "{\"error\":\"a key is 1 to 64 of the bytes a-z, 0-9, '.', '_', '/' and -; a prefix may be empty; an escape is % and two hex digits, as %2F\",\"fault\":3}\n";
    case(&rt, alloc, "PUT /v1/keys/K", "", "400", key);
    case(&rt, alloc, "DELETE /v1/keys/", "", "400", key);
    let lack = "{\"error\":\"name the key: /v1/keys/KEY, or /v1/keys?key=KEY\"}\n";
    case(&rt, alloc, "PUT /v1/keys", "", "400", lack);
    let parameters =
        "{\"error\":\"each parameter comes once; key goes with owner alone, and in a write with no other\"}\n";
    case(
        &rt,
        alloc,
        "PUT /v1/keys?key=k&owner=a",
        "",
        "400",
        parameters,
    );
    let method =
        "{\"error\":\"write by PUT, remove by DELETE; a row is read at /v1/rows/OWNER/KEY\"}\n";
    case(&rt, alloc, "GET /v1/keys/k", "", "405", method);
    case(&rt, alloc, "POST /v1/keys", "", "405", method);
}

#[test]
fn a_port_takes_no_write(rt: HostRuntime) {
    let refusal = "{\"error\":\"writes are taken at a Unix socket only\"}\n";
    for line in ["PUT /v1/keys/k", "DELETE /v1/keys/k", "PUT /v1/keys?key=k"] {
        let request = crate::got(
            &rt,
            format!(in rt.alloc(); "{line} HTTP/1.1\r\nHost: localhost\r\n\r\n"),
        );
        let found = answer_at(&rt, rt.alloc(), Door::Port, request.as_bytes());
        same(&rt, &status(&found), &"403");
        same(&rt, &body(&found), &refusal);
    }
}
