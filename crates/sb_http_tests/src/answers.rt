//! The answers to requests, byte by byte.

use crate::fixed::{answer, answer_at};
use crate::parts::{body, status};
use crate::{got, same};
use sb_http::Door;
use std::alloc::Global;
use std::process::Abort;
use std::random::RandomSource;

/// Compares the status and the body of the answer to a target.
fn case<R: Abort + RandomSource>(rt: &R, alloc: Global, target: &str, wanted: &str, content: &str) {
    let found = answer(rt, alloc, target);
    same(rt, &status(&found), &wanted);
    same(rt, &body(&found), &content);
}

#[test]
fn an_answer_has_its_fields_in_order(rt: HostRuntime) {
    let found = answer(&rt, rt.alloc(), "/v1/owners");
    let wanted =
        "HTTP/1.1 200 OK\r\nconnection: close\r\ncache-control: no-store\r\nx-content-type-options: nosniff\r\ncontent-type: application/json\r\ncontent-length: 94\r\n\r\n{\"owners\":[{\"age\":1500,\"owner\":\"a\",\"rows\":2,\"version\":6},{\"owner\":\"b\",\"rows\":0,\"version\":7}]}\n";
    same(&rt, &str::from_utf8(&found).unwrap_or(""), &wanted);
}

#[test]
fn rows_are_answered(rt: HostRuntime) {
    let page =
        "{\"more\":true,\"rows\":[{\"key\":\"k\",\"kind\":\"weight\",\"owner\":\"a\",\"value\":5,\"version\":5},{\"key\":\"kl\",\"kind\":\"weight\",\"owner\":\"a\",\"value\":6,\"version\":6}]}\n";
    case(&rt, rt.alloc(), "/v1/rows", "200", page);
    case(
        &rt,
        rt.alloc(),
        "/v1/rows?prefix=k&owner=a&after=a%2Fa",
        "200",
        page,
    );
    let row = "{\"key\":\"k\",\"kind\":\"weight\",\"owner\":\"a\",\"value\":5,\"version\":5}\n";
    case(&rt, rt.alloc(), "/v1/rows/a/k", "200", row);
    case(&rt, rt.alloc(), "/v1/rows?key=k&owner=a", "200", row);
    case(
        &rt,
        rt.alloc(),
        "/v1/rows/b/k",
        "404",
        "{\"error\":\"there is no such row\"}\n",
    );
}

#[test]
fn polls_have_a_mark(rt: HostRuntime) {
    let alloc = rt.alloc();
    let rows =
        "{\"more\":true,\"rows\":[{\"key\":\"k\",\"kind\":\"weight\",\"owner\":\"a\",\"value\":5,\"version\":5},{\"key\":\"kl\",\"kind\":\"weight\",\"owner\":\"a\",\"value\":6,\"version\":6}],\"seen\":";
    let first = got(&rt, format!(in alloc; "{rows}\"first\"}}\n"));
    case(&rt, alloc, "/v1/rows?wait=0s", "200", first.as_str());
    let again = got(&rt, format!(in alloc; "{rows}\"0af\"}}\n"));
    case(
        &rt,
        alloc,
        "/v1/rows?owner=a&seen=0af&wait=30s",
        "200",
        again.as_str(),
    );
    let spent =
        "{\"error\":\"as many polls or writes wait at this node as may; a write was not made; ask again in a second, or give polls a shorter wait\",\"fault\":29}\n";
    case(&rt, alloc, "/v1/rows?wait=60s&seen=x", "503", spent);
    let wait =
        "{\"error\":\"wait is 0s to 60s, as in wait=30s; seen is a mark of an answer, and goes with wait\"}\n";
    for target in [
        "/v1/rows?seen=x",
        "/v1/rows?wait=61s",
        "/v1/rows?wait=500ms",
        "/v1/rows?wait=s",
        "/v1/rows?wait=5",
        "/v1/rows?wait=1s&seen=A",
    ] {
        case(&rt, alloc, target, "400", wait);
    }
    let parameters =
        "{\"error\":\"each parameter comes once; key goes with owner alone, and in a write with no other\"}\n";
    for target in ["/v1/rows?wait=1s&wait=1s", "/v1/rows?owner=a&key=k&wait=1s"] {
        case(&rt, alloc, target, "400", parameters);
    }
}

#[test]
fn faults_of_a_node_are_named(rt: HostRuntime) {
    let closed =
        "{\"error\":\"the log of this node takes no writes, or the node ends: its standard error says why\",\"fault\":15}\n";
    case(&rt, rt.alloc(), "/v1/rows?owner=shut", "503", closed);
    let unknown =
        "{\"error\":\"a message of kind 0 is not known, or has no place here\",\"fault\":13}\n";
    case(&rt, rt.alloc(), "/healthz", "503", unknown);
    case(&rt, rt.alloc(), "/metrics", "200", "x 1\n");
}

#[test]
fn what_asks_for_nothing_is_refused(rt: HostRuntime) {
    case(
        &rt,
        rt.alloc(),
        "/v1",
        "404",
        "{\"error\":\"there is no such path\"}\n",
    );
    let unknown =
        "{\"error\":\"there is no such parameter: rows take owner, prefix, after, wait and seen, or owner and key; a write takes key; each is NAME=VALUE\"}\n";
    case(&rt, rt.alloc(), "/v1/rows?x=1", "400", unknown);
    let parameters =
        "{\"error\":\"each parameter comes once; key goes with owner alone, and in a write with no other\"}\n";
    case(&rt, rt.alloc(), "/v1/rows?key=k", "400", parameters);
    case(
        &rt,
        rt.alloc(),
        "/v1/rows?owner=a&owner=a",
        "400",
        parameters,
    );
    let name = "{\"error\":\"a name is 1 to 32 of the bytes a-z, 0-9 and -\",\"fault\":2}\n";
    case(&rt, rt.alloc(), "/v1/rows/A/k", "400", name);
}

#[test]
fn a_place_without_a_slash_is_refused(rt: HostRuntime) {
    let place =
        "{\"error\":\"one row is at /v1/rows/OWNER/KEY, those of an owner at /v1/rows?owner=OWNER; after is OWNER/KEY\",\"fault\":3}\n";
    for target in ["/v1/rows/a", "/v1/rows/", "/v1/rows?after=a"] {
        case(&rt, rt.alloc(), target, "400", place);
    }
}

#[test]
fn a_port_takes_local_hosts(rt: HostRuntime) {
    let ours = answer_at(
        &rt,
        rt.alloc(),
        Door::Port,
        b"GET /metrics HTTP/1.1\r\nHost: localhost:80\r\n\r\n",
    );
    same(&rt, &status(&ours), &"200");
    let other = answer_at(
        &rt,
        rt.alloc(),
        Door::Port,
        b"GET /metrics HTTP/1.1\r\nHost: localhost.b\r\n\r\n",
    );
    same(&rt, &status(&other), &"421");
    let method = answer_at(
        &rt,
        rt.alloc(),
        Door::Port,
        b"PUT /metrics HTTP/1.1\r\nHost: [::1]\r\n\r\n",
    );
    same(&rt, &status(&method), &"405");
}

#[test]
fn the_page_is_answered(rt: HostRuntime) {
    let found = answer(&rt, rt.alloc(), "/");
    let text = str::from_utf8(&found).unwrap_or("");
    let head =
        "HTTP/1.1 200 OK\r\nconnection: close\r\ncache-control: no-store\r\nx-content-type-options: nosniff\r\ncontent-type: text/html; charset=utf-8\r\ncontent-security-policy: default-src 'none'; script-src 'sha256-";
    same(&rt, &text.starts_with(head), &true);
    same(&rt, &body(&found).starts_with("<!doctype html>\n"), &true);
    same(&rt, &body(&found).ends_with("</html>\n"), &true);
}
