//! From where a post comes.
ghost use Rattle.std.specs.Prelude.{◌≡◌, drop, map, take};
ghost use Rattle.std.specs.List.{list_all};
ghost use Rattle.browser_core.specs.Site as form;

/// Whether a post comes from a page of the desk's own, or from no page, by the values of all header
/// lines of three names. Where a `Sec-Fetch-Site` isn't empty, each such line has to say
/// `same-origin` or `none`. Else there is no `Origin` that isn't empty, or there is one `Origin` and
/// one `Host`, and it is the host's, over HTTP or HTTPS.
pub fn is_own_post(sites: &[&[u8]], origins: &[&[u8]], hosts: &[&[u8]]) -> bool
    ensures { result ≡ form.is_own_post (map (λ v. v.now) sites.now)
        (map (λ v. v.now) origins.now) (map (λ v. v.now) hosts.now) }
{
    if are_empty(sites) {
        is_own_origin(origins, hosts)
    } else {
        are_own_sites(sites)
    }
}

fn are_empty(values: &[&[u8]]) -> bool
    ensures { result ≡ list_all form.is_empty (map (λ v. v.now) values.now) }
{
    for value in values {
        if !value.is_empty() {
            return false;
        }
    }
    true
}

fn is_own_site(site: &[u8]) -> bool
    ensures { result ≡ form.is_own_site site.now }
{
    site.is_empty() || site == b"same-origin".as_slice() || site == b"none".as_slice()
}

fn are_own_sites(sites: &[&[u8]]) -> bool
    ensures { result ≡ list_all form.is_own_site (map (λ v. v.now) sites.now) }
{
    for site in sites {
        if !is_own_site(site) {
            return false;
        }
    }
    true
}

/// Whether there is no origin, or one that is that of the one host.
fn is_own_origin(origins: &[&[u8]], hosts: &[&[u8]]) -> bool
    ensures { result ≡ form.is_own_origin (map (λ v. v.now) origins.now)
        (map (λ v. v.now) hosts.now) }
{
    are_empty(origins) || is_one_origin(origins, hosts)
}

fn is_one_origin(origins: &[&[u8]], hosts: &[&[u8]]) -> bool
    ensures { result ≡ form.is_one_origin (map (λ v. v.now) origins.now)
        (map (λ v. v.now) hosts.now) }
{
    origins.len() == 1 && hosts.len() == 1 && is_origin_of(hosts[0], origins[0])
}

/// Whether it is the origin of the host, over HTTP or HTTPS.
fn is_origin_of(host: &[u8], origin: &[u8]) -> bool
    ensures { result ≡ form.is_origin_of host.now origin.now }
{
    is_followed_by(origin, b"http://", host) || is_followed_by(origin, b"https://", host)
}

/// Whether the bytes are the first and then the second.
#[tactic(auto, using(crate::proofs::Both::both_parts))]
fn is_followed_by(bytes: &[u8], first: &[u8], second: &[u8]) -> bool
    ensures { result ≡ form.is_both bytes.now first.now second.now }
{
    let (front, back) = at(bytes, first.len());
    front == first && back == second
}

/// What stands up to a place, and from there on.
fn at(bytes: &[u8], place: usize) -> (&[u8], &[u8])
    ensures front { result.0.now ≡ take place bytes.now }
    ensures back { result.1.now ≡ drop place bytes.now }
{
    if place <= bytes.len() {
        bytes.split_at(place)
    } else {
        (bytes, &[])
    }
}
