ghost use Rattle.std.specs.Prelude.{◌≡◌, option_map};
ghost use Rattle.kd_names.specs.Table.{definition_in, definition_of};
ghost use Rattle.kd_names.specs.Table.{extensions, high_options, ip_parameters, later_options, link_parameters};
ghost use Rattle.kd_names.specs.Table.{more_options, more_services, services, vendor_extensions};

use crate::kind::Kind;

// Returns the name of an option and the type of its value, if it has a name.
pub(crate) fn definition(code: u8) -> Option<(&'static str, Kind)>
    ensures { option_map (λ d. (d.0.now, d.1)) result ≡ definition_of code }
{
    let first = vendor_extension(code).or(ip_parameter(code));
    let settings = first.or(link_parameter(code)).or(service(code));
    let basic = settings.or(more_service(code)).or(extension(code));
    let later = basic.or(later_option(code)).or(more_option(code));
    later.or(high_option(code))
}

// Looks among the vendor extensions of RFC 1497 (RFC 2132 section 3).
fn vendor_extension(code: u8) -> Option<(&'static str, Kind)>
    ensures { option_map (λ d. (d.0.now, d.1)) result ≡ definition_in vendor_extensions code }
{
    match code {
        1 => Some(("subnet-mask", Kind::Address)),
        2 => Some(("time-offset", Kind::Signed)),
        3 => Some(("routers", Kind::Addresses)),
        4 => Some(("time-servers", Kind::Addresses)),
        5 => Some(("name-servers", Kind::Addresses)),
        6 => Some(("domain-name-servers", Kind::Addresses)),
        7 => Some(("log-servers", Kind::Addresses)),
        8 => Some(("cookie-servers", Kind::Addresses)),
        9 => Some(("lpr-servers", Kind::Addresses)),
        10 => Some(("impress-servers", Kind::Addresses)),
        11 => Some(("resource-location-servers", Kind::Addresses)),
        12 => Some(("host-name", Kind::Text)),
        13 => Some(("boot-size", Kind::Short)),
        14 => Some(("merit-dump", Kind::Text)),
        15 => Some(("domain-name", Kind::Text)),
        16 => Some(("swap-server", Kind::Address)),
        17 => Some(("root-path", Kind::Text)),
        18 => Some(("extensions-path", Kind::Text)),
        _ => None,
    }
}

// Looks among the parameters of the IP layer, per host and per interface (RFC 2132 sections 4 and
// 5).
fn ip_parameter(code: u8) -> Option<(&'static str, Kind)>
    ensures { option_map (λ d. (d.0.now, d.1)) result ≡ definition_in ip_parameters code }
{
    match code {
        19 => Some(("ip-forwarding", Kind::Flag)),
        20 => Some(("non-local-source-routing", Kind::Flag)),
        21 => Some(("policy-filter", Kind::Pairs)),
        22 => Some(("max-dgram-reassembly", Kind::Short)),
        23 => Some(("default-ip-ttl", Kind::Byte)),
        24 => Some(("path-mtu-aging-timeout", Kind::Long)),
        25 => Some(("path-mtu-plateau-table", Kind::Shorts)),
        26 => Some(("interface-mtu", Kind::Short)),
        27 => Some(("all-subnets-local", Kind::Flag)),
        28 => Some(("broadcast-address", Kind::Address)),
        29 => Some(("perform-mask-discovery", Kind::Flag)),
        30 => Some(("mask-supplier", Kind::Flag)),
        31 => Some(("router-discovery", Kind::Flag)),
        32 => Some(("router-solicitation-address", Kind::Address)),
        33 => Some(("static-routes", Kind::Pairs)),
        _ => None,
    }
}

// Looks among the parameters of the link layer and of TCP (RFC 2132 sections 6 and 7).
fn link_parameter(code: u8) -> Option<(&'static str, Kind)>
    ensures { option_map (λ d. (d.0.now, d.1)) result ≡ definition_in link_parameters code }
{
    match code {
        34 => Some(("trailer-encapsulation", Kind::Flag)),
        35 => Some(("arp-cache-timeout", Kind::Long)),
        36 => Some(("ieee802-3-encapsulation", Kind::Flag)),
        37 => Some(("default-tcp-ttl", Kind::Byte)),
        38 => Some(("tcp-keepalive-interval", Kind::Long)),
        39 => Some(("tcp-keepalive-garbage", Kind::Flag)),
        _ => None,
    }
}

// Looks among the parameters of applications and services with lower codes (RFC 2132 section 8).
fn service(code: u8) -> Option<(&'static str, Kind)>
    ensures { option_map (λ d. (d.0.now, d.1)) result ≡ definition_in services code }
{
    match code {
        40 => Some(("nis-domain", Kind::Text)),
        41 => Some(("nis-servers", Kind::Addresses)),
        42 => Some(("ntp-servers", Kind::Addresses)),
        43 => Some(("vendor-encapsulated-options", Kind::Bytes)),
        44 => Some(("netbios-name-servers", Kind::Addresses)),
        45 => Some(("netbios-dd-server", Kind::Addresses)),
        46 => Some(("netbios-node-type", Kind::Byte)),
        47 => Some(("netbios-scope", Kind::Text)),
        48 => Some(("font-servers", Kind::Addresses)),
        49 => Some(("x-display-manager", Kind::Addresses)),
        _ => None,
    }
}

// Looks among the rest of them, whose codes are higher.
fn more_service(code: u8) -> Option<(&'static str, Kind)>
    ensures { option_map (λ d. (d.0.now, d.1)) result ≡ definition_in more_services code }
{
    match code {
        64 => Some(("nisplus-domain-name", Kind::Text)),
        65 => Some(("nisplus-servers", Kind::Addresses)),
        68 => Some(("mobile-ip-home-agent", Kind::Addresses)),
        69 => Some(("smtp-server", Kind::Addresses)),
        70 => Some(("pop-server", Kind::Addresses)),
        71 => Some(("nntp-server", Kind::Addresses)),
        72 => Some(("www-server", Kind::Addresses)),
        73 => Some(("finger-server", Kind::Addresses)),
        74 => Some(("irc-server", Kind::Addresses)),
        75 => Some(("streettalk-server", Kind::Addresses)),
        76 => Some(("streettalk-directory-assistance-server", Kind::Addresses)),
        _ => None,
    }
}

// Looks among the extensions of DHCP (RFC 2132 section 9).
fn extension(code: u8) -> Option<(&'static str, Kind)>
    ensures { option_map (λ d. (d.0.now, d.1)) result ≡ definition_in extensions code }
{
    match code {
        50 => Some(("dhcp-requested-address", Kind::Address)),
        51 => Some(("dhcp-lease-time", Kind::Long)),
        52 => Some(("dhcp-option-overload", Kind::Byte)),
        53 => Some(("dhcp-message-type", Kind::MessageType)),
        54 => Some(("dhcp-server-identifier", Kind::Address)),
        55 => Some(("dhcp-parameter-request-list", Kind::Codes)),
        56 => Some(("dhcp-message", Kind::Text)),
        57 => Some(("dhcp-max-message-size", Kind::Short)),
        58 => Some(("dhcp-renewal-time", Kind::Long)),
        59 => Some(("dhcp-rebinding-time", Kind::Long)),
        60 => Some(("vendor-class-identifier", Kind::Text)),
        61 => Some(("dhcp-client-identifier", Kind::Bytes)),
        66 => Some(("tftp-server-name", Kind::Text)),
        67 => Some(("boot-file-name", Kind::Text)),
        _ => None,
    }
}

// Looks among the options of later standards with codes from 62 to 97 (RFC 2241, 2242, 2610, 3004,
// 3046, 3118, 4280, 4388, 4578 and 4702).
fn later_option(code: u8) -> Option<(&'static str, Kind)>
    ensures { option_map (λ d. (d.0.now, d.1)) result ≡ definition_in later_options code }
{
    match code {
        62 => Some(("nwip-domain-name", Kind::Text)),
        63 => Some(("nwip-suboptions", Kind::Bytes)),
        77 => Some(("user-class", Kind::Bytes)),
        78 => Some(("slp-directory-agent", Kind::Bytes)),
        79 => Some(("slp-service-scope", Kind::Bytes)),
        81 => Some(("fqdn", Kind::Bytes)),
        82 => Some(("dhcp-agent-options", Kind::Bytes)),
        85 => Some(("nds-servers", Kind::Addresses)),
        86 => Some(("nds-tree-name", Kind::Text)),
        87 => Some(("nds-context", Kind::Text)),
        88 => Some(("bcms-controller-names", Kind::Names)),
        89 => Some(("bcms-controller-address", Kind::Addresses)),
        90 => Some(("authenticate", Kind::Bytes)),
        91 => Some(("client-last-transaction-time", Kind::Long)),
        92 => Some(("associated-ip", Kind::Addresses)),
        93 => Some(("client-system", Kind::Shorts)),
        94 => Some(("client-ndi", Kind::Bytes)),
        97 => Some(("uuid-guid", Kind::Bytes)),
        _ => None,
    }
}

// Looks among those with codes from 98 to 125 (RFC 2485, 2563, 2937, 3011, 3397, 3442, 3679, 3925,
// 4776, 4833, 8910 and 8925).
fn more_option(code: u8) -> Option<(&'static str, Kind)>
    ensures { option_map (λ d. (d.0.now, d.1)) result ≡ definition_in more_options code }
{
    match code {
        98 => Some(("uap-servers", Kind::Text)),
        99 => Some(("geoconf-civic", Kind::Bytes)),
        100 => Some(("pcode", Kind::Text)),
        101 => Some(("tcode", Kind::Text)),
        108 => Some(("v6-only-preferred", Kind::Long)),
        112 => Some(("netinfo-server-address", Kind::Addresses)),
        113 => Some(("netinfo-server-tag", Kind::Text)),
        114 => Some(("v4-captive-portal", Kind::Text)),
        116 => Some(("auto-config", Kind::Byte)),
        117 => Some(("name-service-search", Kind::Shorts)),
        118 => Some(("subnet-selection", Kind::Address)),
        119 => Some(("domain-search", Kind::Names)),
        121 => Some(("classless-static-route", Kind::Routes)),
        124 => Some(("vivco-suboptions", Kind::Bytes)),
        125 => Some(("vivso-suboptions", Kind::Bytes)),
        _ => None,
    }
}

// Looks among those with codes from 136 on (RFC 5192, 5223, 5417, 5969, 5986, 6011, 6731, 7618,
// 8572 and 9463).
fn high_option(code: u8) -> Option<(&'static str, Kind)>
    ensures { option_map (λ d. (d.0.now, d.1)) result ≡ definition_in high_options code }
{
    match code {
        136 => Some(("pana-agent", Kind::Addresses)),
        137 => Some(("v4-lost", Kind::Name)),
        138 => Some(("capwap-ac-v4", Kind::Addresses)),
        141 => Some(("sip-ua-cs-domains", Kind::Names)),
        143 => Some(("v4-sztp-redirect", Kind::Bytes)),
        146 => Some(("rdnss-selection", Kind::Bytes)),
        159 => Some(("v4-portparams", Kind::Bytes)),
        162 => Some(("v4-dnr", Kind::Bytes)),
        212 => Some(("option-6rd", Kind::Bytes)),
        213 => Some(("v4-access-domain", Kind::Name)),
        _ => None,
    }
}
